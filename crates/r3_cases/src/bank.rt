//! The functions of the cases.

ghost use Rattle.std.specs.Prelude.{◌≡◌, ◌≤◌, length, IfOk};

use fn_check::check;
use fn_lex::tokens;
use fn_syntax::parse;
use fn_tree::checked::Checked;
use r3_value::Memory;
use std::alloc::Global;

/// A bank of accounts: transfers, withdrawals, and what workflows can do beside.
pub const BANK: &str = r#"table acct;
queue mail 1;
outside notify(who, n);
txn pay(a, b, n) {
  let x = get acct[a];
  put acct[a] = x - n;
  let y = get acct[b];
  put acct[b] = y + n;
  return n;
}
txn take(a, b, n) {
  let x = get acct[a];
  let y = get acct[b];
  if x + y < n { fail "short"; }
  put acct[a] = x - n;
  return x - n;
}
txn fill(k) {
  let i = 0;
  while i < k {
    put acct["k" ++ str(i)] = i;
    set i = i + 1;
  }
  return k;
}
flow move(a, b, n) {
  let r = call pay(a, b, n);
  do call notify(b, r);
  return r;
}
flow send(a, b, n) { let r = call pay(a, b, n); return r; }
flow draw(a, b, n) { let r = call take(a, b, n); return r; }
flow fills(k) { let r = call fill(k); return r; }
flow both(a, b, n) {
  let c = spawn send(a, b, n);
  let r = await c;
  return r;
}
flow wait(me) { let r = await me; return r; }
flow odd(m) {
  try { let z = 9223372036854775807 + m; } catch w { return w; }
  return 0;
}
flow spin(m) {
  try { while true { } } catch w { return w; }
  return 0;
}
"#;

/// Accounts that are opened, closed and summed up.
pub const LEDGER: &str = r#"table acct;
table sums;
txn total(lo, hi) {
  let rows = scan acct[lo, hi];
  let sum = 0;
  each row in rows { set sum = sum + row[1]; }
  put sums[lo] = sum;
  return sum;
}
txn remove(k) { let x = get acct[k]; delete acct[k]; return x; }
txn add(k, n) {
  let x = get acct[k];
  if x != null { fail "there"; }
  put acct[k] = n;
  return n;
}
flow sum(lo, hi) { let r = call total(lo, hi); return r; }
flow close(k) { let r = call remove(k); return r; }
flow open(k, n) { let r = call add(k, n); return r; }
"#;

/// Workflows that end in each way, and some that await them.
pub const FAMILY: &str = r#"queue line 1;
outside tell(n);
flow child(n) {
  if n == 1 { return 7; }
  if n == 2 { fail "broken"; }
  do call tell(n);
  return 0;
}
flow parent(n) { let c = spawn child(n); let r = await c; return r; }
flow wait(on) { let r = await on; return r; }
"#;

/// The program of a text of at most 2^20 bytes. The cases have no other text and no other faults than want of
/// memory.
pub fn program_of(alloc: Global, text: &str) -> Result<Checked, Memory>
    requires { length text.now ≤ 1048576 }
{
    let bytes = text.as_bytes();
    let tokens = match tokens(alloc, bytes) {
        Ok(tokens) => tokens,
        Err(_) => return Err(Memory),
    };
    let program = match parse(alloc, bytes, &tokens) {
        Ok(program) => program,
        Err(_) => return Err(Memory),
    };
    match check(alloc, program) {
        Ok(checked) => Ok(checked),
        Err(_) => Err(Memory),
    }
}
