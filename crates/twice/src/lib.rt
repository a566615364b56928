// A kind of one's own, made without touching the library: a byte that is stored twice.
#![tactic(auto)]

ghost use Rattle.twice.specs.Twice.{twice as twice_kind};
ghost use Rattle.twice.specs.Laws.{twice_laws};

use buffer::put_at;
use endian::width::Width1;
use kind::Kind;
use refusal::{Cause, Refusal};

#[derive(Clone, Copy)]
pub struct TwiceByte;

const MARK: &[u8; 2] = b"T2";

impl Kind for TwiceByte {
    ghost meaning = { λ _. twice_kind };

    ghost lawful = { λ k. twice_laws };

    fn size(&self) -> usize {
        2
    }

    fn align(&self) -> usize {
        1
    }

    fn scan(&self, sheet: &[u8], at: usize) -> Result<usize, Refusal> {
        sheet::number::<Width1>(sheet, at, MARK)?;
        Ok(at + 3)
    }

    fn layout(&self, _sheet: &[u8], at: &mut usize, tail: usize) -> (usize, usize) {
        *at += 3;
        (tail, 1)
    }

    #[tactic(auto, using(crate::proofs::Rooms::room))]
    fn fill(
        &self,
        sheet: &[u8],
        at: &mut usize,
        out: &mut [u8],
        head: usize,
        tail: usize,
    ) -> usize {
        let byte = sheet[*at + 2];
        put_at(out, head, &[byte, byte]);
        *at += 3;
        tail
    }

    fn shallow(&self, archive: &[u8], at: usize) -> Result<usize, Refusal> {
        if archive[at] != archive[at + 1] {
            return Err(Refusal::at(Cause::NotScalar, at));
        }
        Ok(at)
    }

    fn deep(&self, archive: &[u8], at: usize) -> Result<usize, Refusal> {
        self.shallow(archive, at)?;
        Ok(3)
    }

    fn copy(&self, archive: &[u8], at: usize, out: &mut [u8], to: usize) -> usize {
        put_at(out, to, MARK);
        put_at(out, to + 2, &[archive[at]]);
        to + 3
    }
}
