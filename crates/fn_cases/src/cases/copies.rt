//! Copies of programs.

use super::bank::BANK;
use crate::program;
use std::test::Fail;

// What the bank has none of.
const REST: &str = r#"table t;
queue q 1000;
helper h(x, y) = [!x, -1, x - y * 2, len(x) / 3 % 4, x[0]];
txn f(k) {
  let r = scan t["a", k ++ "z"];
  each x in r { delete t[x[0]]; }
  if len(r) == 0 || k != "" && k <= "b" { fail "none"; } else { return h(r, null); }
  return k > "c" || k >= "d";
}
flow g() { do await "w"; do spawn g(); return false; }
"#;

#[test]
fn a_program_is_copied(rt: HostRuntime) -> Result<(), Fail> {
    let alloc = rt.alloc();
    let bank = program(alloc, BANK.as_bytes())?;
    let rest = program(alloc, REST.as_bytes())?;
    let copy = bank.copy()?;
    assert!(rt; copy.same(&bank) && !copy.same(&rest), "the bank");
    let copy = rest.copy()?;
    assert!(rt; copy.same(&rest) && !copy.same(&bank), "the rest");
    Ok(())
}
