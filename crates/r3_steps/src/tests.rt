ghost use Rattle.std.specs.Prelude.{◌≡◌, ◌<◌};

use crate::Steps;
use std::marker::Brand;
use std::mem::size_of;
use std::sync::ledger::{Blank, Ledger};

fn size_after_two_steps<L: Ledger>(blank: Blank) -> usize
    requires name { blank.name ≡ L.name }
    requires parts { blank.parts ≡ L.parts }
    requires some { 0 < blank.parts }
{
    let mut steps = Steps::<L>::new(blank);
    steps.tick();
    steps.tick();
    size_of::<Steps<L>>()
}

#[test]
fn a_counter_takes_no_bytes(rt: HostRuntime) {
    assert_eq!(rt; size_after_two_steps::<Brand>(Blank::new(1)), 0);
}
