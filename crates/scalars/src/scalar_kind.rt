// A scalar as a kind: a head in the byte order, and no tail.
ghost use Rattle.std.specs.Prelude.{◌≡◌, ℕ, ◌+◌, ◌^◌, ◌<◌, drop};
ghost use Rattle.std.specs.Bool.{then_some};
ghost use Rattle.kind.specs.Asked.{Always};
ghost use Rattle.refusal.specs.Told.{told};
ghost use Rattle.format.specs.Answers.{good, fault, unless};
ghost use Rattle.format.specs.Items.{first_of};
ghost use Rattle.format.specs.Sheets.{at_place, scan_number, number_of};
ghost use Rattle.format.specs.Scalars.{scalar_kind};
ghost use Rattle.format.proofs.ScalarLaws.{scalar_laws};

use crate::scalar::Scalar;
use buffer::put_at;
use endian::order::{Endian, LittleEndian};
use endian::width::Primitive;
use kind::Kind;
use refusal::{Cause, Refusal};
use sheet;
use std::marker::PhantomData;

#[derive(Drop)]
pub struct ScalarKind<S: Scalar, E: Endian> {
    scalar: PhantomData<S>,
    order: PhantomData<E>,
}

impl<S: Scalar, E: Endian> ScalarKind<S, E> {
    pub fn new() -> Self {
        ScalarKind {
            scalar: PhantomData,
            order: PhantomData,
        }
    }
}

// Where the scalar at a place of a sheet ends, if its number is one. The test stands here and in `shallow`, each with its cause.
fn scalar_end<S: Scalar>(n: u64, at: usize) -> Result<usize, Refusal>
    requires { at + 2 + S.Width.Primitive.SIZE < 2 ^ 64 }
    ensures { told result ≡ unless (S.Scalar.passes n) (fault 14 at) (good (at + 2 + S.Width.Primitive.SIZE)) }
{
    if !S::valid(n) {
        return Err(Refusal::at(Cause::SheetNotScalar, at));
    }
    Ok(at + 2 + S::Width::SIZE)
}

// The number of the scalar at a place where a scan found one. `at` goes on behind it.
fn next_number<S: Scalar>(sheet: &[u8], at: &mut usize) -> <S::Width as Primitive>::Number
    requires { (next : ℕ) × (at_place (scan_number S.Scalar.MARK S.Width.Primitive.SIZE S.Scalar.passes) sheet.now at.old ≡ good next) }
    ensures value { S.Width.Primitive.value result ≡ number_of S.Width.Primitive.SIZE (first_of (scan_number S.Scalar.MARK S.Width.Primitive.SIZE S.Scalar.passes (drop at.old sheet.now)) (drop at.old sheet.now)) }
    ensures next { at_place (scan_number S.Scalar.MARK S.Width.Primitive.SIZE S.Scalar.passes) sheet.now at.old ≡ good at.new }
{
    let n = S::Width::take_back::<LittleEndian>(sheet, *at + 2);
    *at = *at + 2 + S::Width::SIZE;
    n
}

impl<S: Scalar, E: Endian> Kind for ScalarKind<S, E> {
    ghost meaning = { λ _. scalar_kind S.Scalar.MARK S.Width.Primitive.SIZE S.Scalar.passes E.Endian.order };

    ghost lawful = { λ k. scalar_laws S.Scalar.MARK S.Width.Primitive.SIZE S.Scalar.passes E.Endian.order S.Width.Primitive.sized E.Endian.undoes };

    fn size(&self) -> usize {
        S::Width::SIZE
    }

    // A scalar is aligned by its size.
    fn align(&self) -> usize {
        S::Width::SIZE
    }

    fn scan(&self, sheet: &[u8], at: usize) -> Result<usize, Refusal> {
        let n = sheet::number::<S::Width>(sheet, at, &S::MARK)?;
        scalar_end::<S>(S::Width::widen(n), at)
    }

    fn layout(&self, sheet: &[u8], at: &mut usize, tail: usize) -> (usize, usize) {
        next_number::<S>(sheet, at);
        (tail, S::Width::SIZE)
    }

    fn fill(
        &self,
        sheet: &[u8],
        at: &mut usize,
        out: &mut [u8],
        head: usize,
        tail: usize,
    ) -> usize {
        let n = next_number::<S>(sheet, at);
        S::Width::lay::<E>(n, out, head);
        tail
    }

    fn shallow(&self, archive: &[u8], at: usize) -> Result<usize, Refusal> {
        let n = S::Width::take_back::<E>(archive, at);
        if !S::valid(S::Width::widen(n)) {
            return Err(Refusal::at(Cause::NotScalar, at));
        }
        Ok(at)
    }

    fn deep(&self, archive: &[u8], at: usize) -> Result<usize, Refusal> {
        self.shallow(archive, at)?;
        Ok(2 + S::Width::SIZE)
    }

    // A row of such scalars need not be read just where every number is one.
    fn always(&self) -> Option<usize>
        ensures always { Always (scalar_kind S.Scalar.MARK S.Width.Primitive.SIZE S.Scalar.passes E.Endian.order) result }
        ensures exact { result ≡ then_some S.Scalar.ALL_VALID (2 + S.Width.Primitive.SIZE) }
    {
        S::ALL_VALID.then_some(2 + S::Width::SIZE)
    }

    fn copy(&self, archive: &[u8], at: usize, out: &mut [u8], to: usize) -> usize {
        let n = S::Width::take_back::<E>(archive, at);
        put_at(out, to, &S::MARK);
        S::Width::lay::<LittleEndian>(n, out, to + 2);
        to + 2 + S::Width::SIZE
    }
}
