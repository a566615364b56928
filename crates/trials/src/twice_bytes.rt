// A kind that the library does not know.
use kind::Kind;
use refusal::{Cause, Refusal};
use twice::TwiceByte;

// A byte that is changed in one of its two places is refused; one look tells it.
#[test]
fn sound_and_damaged(rt: HostRuntime) {
    assert_eq!(rt; TwiceByte.shallow(&[7, 7], 0), Ok(0));
    assert_eq!(rt; TwiceByte.deep(&[9, 7, 7], 1), Ok(3));
    assert_eq!(rt;
        TwiceByte.deep(&[7, 6], 0),
        Err(Refusal::at(Cause::NotScalar, 0))
    );
    assert_eq!(rt; TwiceByte.scan(b"T2\x07", 0), Ok(3));
    assert_eq!(rt;
        TwiceByte.scan(b"T2", 0),
        Err(Refusal::at(Cause::SheetEnds, 0))
    );
}
