// Building a value: a plan first, which decides every refusal and writes nothing, then the bytes.
ghost use Rattle.std.specs.Prelude.{◌≡◌, length, IfOk, Ok};
ghost use Rattle.format.specs.Answers.{good};
ghost use Rattle.format.specs.Builder.{build as builds, whole as whole_by, change, done, step};
ghost use Rattle.refusal.specs.Told.{told, told_by};
ghost use Rattle.kind.specs.Asked.{value_at, Next, Fillable, filled};
ghost use Rattle.builder.specs.Model.{model, left, planned};

use crate::ZeroBuilder;
use crate::alignment::Alignment;
use buffer::{LIMIT, STOP};
use kind::Kind;
use refusal::{Cause, Refusal};
use sheet::ended;

// The place of the head, and the used length and the alignment afterwards.
#[derive(Clone, Copy)]
struct Plan {
    place: usize,
    end: usize,
    align: Alignment,
}

// Kind and sheet stay two parameters, as a caller of `build` hands them over: a pair would be made for these calls alone.
// The test of the limit stands at each of the calls that give 1, three lines each: one function for it would have to stand in `refusal`,
// which would then know of buffers for its sake.
// Where the value of a sheet ends that is all of the sheet.
fn whole<K: Kind>(kind: &K, sheet: &[u8]) -> Result<usize, Refusal>
    ensures told { told result ≡ whole_by (K.Kind.meaning kind.now) sheet.now }
    ensures found { IfOk result (Next (K.Kind.meaning kind.now) sheet.now 0) }
{
    if sheet.len() > LIMIT {
        return Err(Refusal::whole(Cause::OverLimit));
    }
    let end = kind.scan(sheet, 0)?;
    ended(sheet, end)
}

// Fills in the value of a sheet.
fn lay<K: Kind>(buffer: &mut [u8], kind: &K, sheet: &[u8], head: usize, tail: usize)
    requires { Fillable (K.Kind.meaning kind.now) sheet.now 0 buffer.old head tail }
    ensures { buffer.new ≡ filled buffer.old head tail ((K.Kind.meaning kind.now).lay (value_at (K.Kind.meaning kind.now) sheet.now 0) head tail) }
{
    let mut at = 0;
    kind.fill(sheet, &mut at, buffer, head, tail);
}

impl ZeroBuilder {
    // What a build of a sheet would come to. The layout's end decides whether there is room, and nothing before it.
    fn plan<K: Kind>(&self, kind: &K, sheet: &[u8]) -> Result<Plan, Refusal>
        ensures { told_by (planned (model self.now) (K.Kind.meaning kind.now) sheet.now) result ≡ change (model self.now) (builds (K.Kind.meaning kind.now) sheet.now) }
    {
        whole(kind, sheet)?;
        let place = self.next(Alignment::of(kind));
        let tail = (place + kind.size()).min(STOP);
        let mut at = 0;
        let (end, widest) = kind.layout(sheet, &mut at, tail);
        self.reach(end, 0)?;
        let align = self.align.larger(Alignment { bytes: widest });
        Ok(Plan { place, end, align })
    }

    // Builds by a plan, and tells the place of the head.
    fn commit<K: Kind>(&mut self, buffer: &mut [u8], kind: &K, sheet: &[u8], plan: Plan) -> usize
        requires own { length buffer.old ≡ self.old.room }
        requires planned { change (model self.old) (builds (K.Kind.meaning kind.now) sheet.now) ≡ good (planned (model self.old) (K.Kind.meaning kind.now) sheet.now plan) }
        ensures { left (Ok result) self.new buffer.new ≡ done (model self.old) buffer.old (change (model self.old) (builds (K.Kind.meaning kind.now) sheet.now)) }
    {
        self.grow(buffer, plan.place, plan.end, plan.align);
        lay(buffer, kind, sheet, plan.place, plan.place + kind.size());
        plan.place
    }

    // The value of a sheet: its head at the next place of its kind, which is told, and its tail behind it.
    pub fn build<K: Kind>(
        &mut self,
        buffer: &mut [u8],
        kind: &K,
        sheet: &[u8],
    ) -> Result<usize, Refusal>
        ensures { left result self.new buffer.new ≡ step (builds (K.Kind.meaning kind.now) sheet.now) (model self.old) buffer.old }
    {
        self.own(buffer.len())?;
        let plan = self.plan(kind, sheet)?;
        Ok(self.commit(buffer, kind, sheet, plan))
    }
}
