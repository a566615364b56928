// What is done with a kind.
ghost use Rattle.naming.specs.Senses.{Sense, plain, leading};

use kind::{Kind, OneStep};

// What is done with a kind once its name has told which it is: as a closure that is generic over kinds would be.
pub trait Use {
    type Answer;

    // What it may answer of a kind of that sense, and be left as. It is lent and not given, since a contract says what becomes of what is lent.
    ghost tells: { Self → Sense → Self.Answer → Self → Type 0 };

    fn with<K: Kind>(&mut self, kind: &K) -> Self::Answer
        ensures { tells self.old (plain (K.Kind.meaning kind.now)) result self.new };

    // With a kind that leads somewhere. Most uses say that it makes no difference; a body here would have to be proved of every use.
    fn with_step<K: OneStep>(&mut self, kind: &K) -> Self::Answer
        ensures { tells self.old (leading (K.Kind.meaning kind.now) (K.OneStep.step kind.now)) result self.new };
}
