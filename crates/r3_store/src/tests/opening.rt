//! Files that were changed by hand, each named by its entry.

use super::{LOAD, PROGRAM, image_of, opened};
use crate::OpenFault;
use std::test::Fail;

#[test]
fn a_changed_byte_is_named_by_its_entry(rt: HostRuntime) -> Result<(), Fail> {
    let alloc = rt.alloc();
    // which bytes become another one, how many bytes are left, what opening answers
    let cases = [
        (0..1, 0x52, 85, Ok(2)),
        (0..1, 0x00, 85, Err(OpenFault::NotStore)),
        (9..13, 0x00, 85, Err(OpenFault::Damaged { entry: 1 })),
        (13..14, 0x02, 85, Err(OpenFault::NotFormed { entry: 1 })),
        (50..51, 0x02, 85, Err(OpenFault::NotFormed { entry: 2 })),
        (50..51, 0x00, 85, Ok(2)),
        (72..73, 0xff, 85, Err(OpenFault::NotFormed { entry: 2 })),
        (73..74, 0x00, 85, Err(OpenFault::NotFormed { entry: 2 })),
        (84..85, 0xa5, 85, Err(OpenFault::Damaged { entry: 3 })),
        (0..1, 0x52, 84, Err(OpenFault::Damaged { entry: 2 })),
        // records come before entries
        (13..14, 0x02, 84, Err(OpenFault::Damaged { entry: 2 })),
        (0..1, 0x52, 9, Ok(0)),
    ];
    for (places, byte, len, want) in cases {
        let mut image = image_of(alloc, &[PROGRAM, LOAD], &[], 0)?;
        assert_eq!(rt; image.len(), 85);
        for (place, old) in image.iter_mut().enumerate() {
            if places.start <= place && place < places.end {
                *old = byte;
            }
        }
        image.truncate(len);
        let got = opened(alloc, image)?;
        assert!(rt; got == want, "{byte} at {}, cut to {len}", places.start);
    }
    Ok(())
}
