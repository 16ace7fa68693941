use crate::draws::Draws;
use crate::{BANK, run};
use fn_check::check;
use fn_lex::tokens;
use fn_syntax::parse;
use fn_tree::checked::Checked;
use r3_desk::{MemDesk, Room};
use std::alloc::Global;
use std::test::Fail;

#[test]
fn the_first_draws_of_seven(rt: HostRuntime) -> Result<(), Fail> {
    let mut draws = Draws { kept: 7 };
    let wants = [2_693_242, 505_774_798, 3_671_424_921, 2_443_752_955];
    for want in wants {
        assert_eq!(rt; draws.draw(), want);
    }
    Ok(())
}

fn bank(alloc: Global) -> Result<Checked, Fail> {
    let tokens = tokens(alloc, BANK.as_bytes())?;
    let program = parse(alloc, BANK.as_bytes(), &tokens)?;
    Ok(check(alloc, program)?)
}

// What a run says over this image, and the image that it leaves.
fn left_by(
    alloc: Global,
    image: Vec<u8>,
    number: u64,
    count: u32,
) -> Result<(Vec<u8>, Vec<u8>), Fail> {
    let room = Room {
        calls: 100_000,
        bytes: 1 << 20,
    };
    let mut desk = MemDesk::new(alloc, image, Vec::new(alloc), Vec::new(alloc), room)?;
    run(alloc, &mut desk, bank(alloc)?, BANK, number, count)?;
    Ok((desk.said().to_vec(alloc)?, desk.image().to_vec(alloc)?))
}

#[test]
fn two_hundred_transfers_keep_the_sum(rt: HostRuntime) -> Result<(), Fail> {
    let alloc = rt.alloc();
    let (said, image) = left_by(alloc, Vec::new(alloc), 7, 200)?;
    let want = b"{\"entries\":602,\"success\":200,\"sum\":64000}\n".as_slice();
    assert_eq!(rt; said.as_slice(), want);
    // The accounts are loaded anew, and each start repeats one.
    let (said, _image) = left_by(alloc, image, 7, 200)?;
    let want = b"{\"entries\":603,\"success\":200,\"sum\":64000}\n".as_slice();
    assert_eq!(rt; said.as_slice(), want);
    Ok(())
}
