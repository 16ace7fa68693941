//! The program of the script.

/// A bank: accounts, transfers between them, and workflows that make these in one transaction or step by step.
pub const BANK: &str = "table acct;
queue mail 1;
outside notify(who, n);
txn pay(a, b, n) {
  let x = get acct[a];
  put acct[a] = x - n;
  let y = get acct[b];
  put acct[b] = y + n;
  return n;
}
txn take(a, b, n) {
  let x = get acct[a];
  let y = get acct[b];
  if x + y < n { fail \"short\"; }
  put acct[a] = x - n;
  return x - n;
}
txn fill(k) {
  let i = 0;
  while i < k {
    put acct[\"k\" ++ str(i)] = i;
    set i = i + 1;
  }
  return k;
}
flow move(a, b, n) {
  let r = call pay(a, b, n);
  do call notify(b, r);
  return r;
}
flow send(a, b, n) { let r = call pay(a, b, n); return r; }
flow draw(a, b, n) { let r = call take(a, b, n); return r; }
flow fills(k) { let r = call fill(k); return r; }
flow both(a, b, n) {
  let c = spawn send(a, b, n);
  let r = await c;
  return r;
}
flow wait(me) { let r = await me; return r; }
flow odd(m) {
  try { let z = 9223372036854775807 + m; } catch w { return w; }
  return 0;
}
flow spin(m) {
  try { while true { } } catch w { return w; }
  return 0;
}
";
