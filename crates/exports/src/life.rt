// The whole life of a builder, told by its calls: C can't keep a builder, since only `new` makes one.
ghost use Rattle.std.specs.Prelude.{◌≡◌, ◌-◌, length};
ghost use Rattle.std.specs.Option.{option_map};
ghost use Rattle.builder.specs.Model.{model};
ghost use Rattle.exports.specs.Numbers.{why_not};
ghost use Rattle.exports.specs.Lives.{course as goes, told as tells, life};
ghost use Rattle.exports.specs.Steps.{course_of};

use crate::answer::{Answer, NotMade, Told};
use crate::encoded::Step;
use builder::{Finished, ZeroBuilder};

impl From<Finished> for Told {
    ghost from_gives = { λ f t. t ≡ record { value = f.length; count = f.alignment } };

    fn from(finished: Finished) -> Told {
        Told {
            value: finished.length,
            count: finished.alignment,
        }
    }
}

// How far a life came: how many calls were made, and what stands behind them, with the reason why the next was not.
#[derive(Drop)]
struct Course<'a> {
    made: usize,
    rest: &'a [u8],
    stopped: Option<NotMade>,
}

impl Course<'_> {
    fn told(self, calls: &[u8]) -> Answer
        ensures { result ≡ tells (option_map why_not self.entry.stopped) self.entry.made (length calls.now - length self.entry.rest.now) }
    {
        let read = calls.len().saturating_sub(self.rest.len()) as u64;
        let (refusal, place) = match self.stopped {
            Some(why) => (why as u64, read),
            None => (0, 0),
        };
        Answer {
            refusal,
            place,
            depth: 0,
            value: self.made as u64,
            count: read,
        }
    }
}

fn live<'a>(
    mut builder: ZeroBuilder,
    calls: &'a [u8],
    buffer: &mut [u8],
    answers: &mut [Answer],
) -> Course<'a>
    ensures { course_of result buffer.new answers.new ≡ goes answers.old (model builder) buffer.old calls.now }
{
    let mut course = Course {
        made: 0,
        rest: calls,
        stopped: None,
    };
    for answer in answers {
        if course.rest.is_empty() {
            return course;
        }
        let Some((step, behind)) = Step::read(course.rest) else {
            course.stopped = Some(NotMade::NoCall);
            return course;
        };
        // Counted here: it is told behind the loop, where an index of the answers would be gone.
        course.made = course.made.saturating_add(1);
        course.rest = behind;
        match step {
            Step::Event(event) => *answer = event.make(&mut builder, buffer).into(),
            Step::Finish => {
                *answer = Ok(builder.finish().into()).into();
                return course;
            }
        }
    }
    if !course.rest.is_empty() {
        course.stopped = Some(NotMade::NoAnswer);
    }
    course
}

pub(crate) fn run(calls: &[u8], buffer: &mut [u8], answers: &mut [Answer]) -> Answer
    ensures { record { answer = result; buffer = buffer.new; answers = answers.new } ≡ life calls.now buffer.old answers.old }
{
    match ZeroBuilder::new(buffer) {
        Ok(builder) => live(builder, calls, buffer, answers).told(calls),
        Err(refusal) => Err(refusal.into()).into(),
    }
}
