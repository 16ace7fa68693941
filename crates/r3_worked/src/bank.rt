//! The functions of the cases.

use fn_check::check;
use fn_lex::tokens;
use fn_syntax::parse;
use fn_tree::checked::Checked;
use r3_value::Memory;
use std::alloc::Global;

/// A bank of accounts: transfers, withdrawals, and what workflows can do beside.
pub const BANK: &str = r#"table acct;
queue mail 1;
outside notify(who, n);
txn pay(a, b, n) {
  let x = get acct[a];
  put acct[a] = x - n;
  let y = get acct[b];
  put acct[b] = y + n;
  return n;
}
txn take(a, b, n) {
  let x = get acct[a];
  let y = get acct[b];
  if x + y < n { fail "short"; }
  put acct[a] = x - n;
  return x - n;
}
txn fill(k) {
  let i = 0;
  while i < k {
    put acct["k" ++ str(i)] = i;
    set i = i + 1;
  }
  return k;
}
flow move(a, b, n) {
  let r = call pay(a, b, n);
  do call notify(b, r);
  return r;
}
flow send(a, b, n) { let r = call pay(a, b, n); return r; }
flow draw(a, b, n) { let r = call take(a, b, n); return r; }
flow fills(k) { let r = call fill(k); return r; }
flow both(a, b, n) {
  let c = spawn send(a, b, n);
  let r = await c;
  return r;
}
flow wait(me) { let r = await me; return r; }
flow odd(m) {
  try { let z = 9223372036854775807 + m; } catch w { return w; }
  return 0;
}
flow spin(m) {
  try { while true { } } catch w { return w; }
  return 0;
}
"#;

/// The program of a text of at most 2^20 bytes. The cases have no other texts, and no texts that are no program.
pub fn program_of(alloc: Global, text: &str) -> Result<Checked, Memory> {
    if text.len() > 1_048_576 {
        return Err(Memory);
    }
    let bytes = text.as_bytes();
    let tokens = match tokens(alloc, bytes) {
        Ok(tokens) => tokens,
        Err(_) => return Err(Memory),
    };
    let program = match parse(alloc, bytes, &tokens) {
        Ok(program) => program,
        Err(_) => return Err(Memory),
    };
    match check(alloc, program) {
        Ok(checked) => Ok(checked),
        Err(_) => Err(Memory),
    }
}
