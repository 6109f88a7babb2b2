//! Two words of fields, one of them with the greatest parts. Their values come from outside.

use rec_word::{Stamp, pack, stamp, target};
use std::process::Abort;

#[test]
fn worked_words(rt: HostRuntime) {
    let first = Stamp {
        writer: 1,
        epoch: 1,
        index: 0,
    };
    let greatest = Stamp {
        writer: 63,
        epoch: 16_777_215,
        index: 262_143,
    };
    for (to, by, word) in [
        (Some(0), first, 1_099_511_693_313),
        (Some(65_534), greatest, u64::MAX),
    ] {
        assert_eq!(rt; pack(to, by), word);
        assert_eq!(rt; target(word), to);
        assert_eq!(rt; stamp(word), by);
    }
    assert_eq!(rt; target(0), None);
}
