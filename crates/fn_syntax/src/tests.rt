use crate::fault::SyntaxError;
use crate::program::parse;
use fn_lex::{LexError, tokens};
use fn_spell::spell;
use fn_tree::program::Program;
use std::alloc::Global;
use std::test::Fail;

/// What comes of a text.
#[derive(Drop)]
enum Answer {
    Parsed(Program),
    Refused(u32),
    Unlexed(u32),
}

fn read(alloc: Global, text: &[u8]) -> Result<Answer, Fail> {
    if text.len() >= 4294967296 {
        return Err(Fail::from(SyntaxError::Memory));
    }
    match tokens(alloc, text) {
        Ok(tokens) => match parse(alloc, text, tokens.as_slice()) {
            Ok(program) => Ok(Answer::Parsed(program)),
            Err(SyntaxError::Syntax { at }) => Ok(Answer::Refused(at)),
            Err(SyntaxError::Memory) => Err(Fail::from(SyntaxError::Memory)),
        },
        Err(LexError::Lex { at }) => Ok(Answer::Unlexed(at)),
        Err(LexError::Memory) => Err(Fail::from(LexError::Memory)),
    }
}

/// The refused place of a text, or none.
fn place(alloc: Global, text: &str) -> Result<Option<u32>, Fail> {
    match read(alloc, text.as_bytes())? {
        Answer::Parsed(_) => Ok(None),
        Answer::Refused(at) => Ok(Some(at)),
        Answer::Unlexed(_) => Err(Fail::from(SyntaxError::Memory)),
    }
}

const BANK: &str = "table acct;
queue mail 1;
outside notify(who, n);
txn pay(a, b, n) {
  let x = get acct[a];
  put acct[a] = x - n;
  let y = get acct[b];
  put acct[b] = y + n;
  return n;
}
txn take(a, b, n) {
  let x = get acct[a];
  let y = get acct[b];
  if x + y < n { fail \"short\"; }
  put acct[a] = x - n;
  return x - n;
}
txn fill(k) {
  let i = 0;
  while i < k {
    put acct[\"k\" ++ str(i)] = i;
    set i = i + 1;
  }
  return k;
}
flow move(a, b, n) {
  let r = call pay(a, b, n);
  do call notify(b, r);
  return r;
}
flow send(a, b, n) { let r = call pay(a, b, n); return r; }
flow draw(a, b, n) { let r = call take(a, b, n); return r; }
flow fills(k) { let r = call fill(k); return r; }
flow both(a, b, n) {
  let c = spawn send(a, b, n);
  let r = await c;
  return r;
}
flow wait(me) { let r = await me; return r; }
flow odd(m) {
  try { let z = 9223372036854775807 + m; } catch w { return w; }
  return 0;
}
flow spin(m) {
  try { while true { } } catch w { return w; }
  return 0;
}
";

#[test]
fn a_bank_is_parsed(rt: HostRuntime) -> Result<(), Fail> {
    match read(rt.alloc(), BANK.as_bytes())? {
        Answer::Parsed(program) => assert_eq!(rt; program.items.len(), 14),
        _ => assert!(rt; false, "the bank is a program"),
    }
    Ok(())
}

#[test]
fn a_bad_lexeme_is_no_fault_of_syntax(rt: HostRuntime) -> Result<(), Fail> {
    match read(rt.alloc(), b"table Acct;")? {
        Answer::Unlexed(at) => assert_eq!(rt; at, 6),
        _ => assert!(rt; false, "it has a bad lexeme"),
    }
    match read(rt.alloc(), b"table acct")? {
        Answer::Refused(at) => assert_eq!(rt; at, 10),
        _ => assert!(rt; false, "its end is missing"),
    }
    Ok(())
}

#[test]
fn refused_places_are_exact(rt: HostRuntime) -> Result<(), Fail> {
    // a text, and where it is refused
    let cases = [
        ("", None),
        ("# nothing\n", None),
        ("table a", Some(7)),
        ("table a  ", Some(9)),
        ("table 1;", Some(6)),
        ("queue q 0;", Some(8)),
        ("queue q 1;", None),
        ("queue q 1000;", None),
        ("queue q 1001;", Some(8)),
        ("x", Some(0)),
        ("txn f() { let x = 1 + ; }", Some(22)),
        ("txn f() { return 1 < 2 < 3; }", Some(23)),
        ("txn f() { return 1 - -2; }", None),
        ("txn f() { return (1; }", Some(19)),
        ("txn f() { return [1,]; }", Some(20)),
        ("txn f() { return x(1)(2); }", Some(21)),
        ("txn f() { return 1 [ 0 ]; }", None),
        ("txn f() { set x = call g(1; }", Some(26)),
        ("txn f() { return call g(); }", Some(17)),
        ("txn f() { else { } }", Some(10)),
        ("txn f() { if 1 { } else { } else { } }", Some(28)),
        ("txn f(a b) { }", Some(8)),
        ("txn f(a,) { }", Some(8)),
        ("helper h(a) = a; table t; }", Some(26)),
        ("txn f() { return int; }", Some(17)),
        ("txn f() {", Some(9)),
    ];
    for (text, want) in cases {
        assert_eq!(rt; place(rt.alloc(), text)?, want, "of {text}");
    }
    Ok(())
}

#[test]
fn limits_are_met_at_their_edges(rt: HostRuntime) -> Result<(), Fail> {
    // what begins the text, what is repeated, how often, what ends it, and where it is refused
    let cases = [
        ("", "table a;", 1000, "", None),
        ("", "table a;", 1001, "", Some(8000)),
        ("txn f(a", ",a", 15, ") { }", None),
        ("txn f(a", ",a", 16, ") { }", Some(38)),
        ("txn f() { return ", "(", 63, "", Some(80)),
        ("txn f() { return ", "(", 64, "", Some(80)),
        ("txn f() { return 1", "+1", 511, "; }", None),
        ("txn f() { return -1", "+1", 511, "; }", None),
        ("txn f() { return 1", "+1", 512, "; }", Some(1041)),
        ("txn f() { return --1", "+1", 511, "; }", Some(1041)),
        ("txn f() { put t[1", "+1", 511, "] = 2; }", None),
    ];
    for (front, part, count, end, want) in cases {
        let middle = part.repeat(rt.alloc(), count)?;
        let text = format!(in rt.alloc(); "{front}{middle}{end}")?;
        assert_eq!(rt;
            place(rt.alloc(), text.as_str())?,
            want,
            "{count} times {part}"
        );
    }
    Ok(())
}

#[test]
fn sixty_four_brackets_are_open_at_once(rt: HostRuntime) -> Result<(), Fail> {
    // how many parentheses stand in the braces, and where they are refused
    for (count, want) in [(63, None), (64, Some(80))] {
        let front = "(".repeat(rt.alloc(), count)?;
        let end = ")".repeat(rt.alloc(), count)?;
        let text = format!(in rt.alloc(); "txn f() {{ return {front}1{end}; }}")?;
        assert_eq!(rt; place(rt.alloc(), text.as_str())?, want, "of {count}");
    }
    Ok(())
}

/// The spelling of a program, if it is parsed again to the same tree.
fn respelled(alloc: Global, text: &str) -> Result<Option<Vec<u8>>, Fail> {
    match read(alloc, text.as_bytes())? {
        Answer::Parsed(program) => {
            let bytes = spell(&program)?;
            match read(alloc, bytes.as_slice())? {
                Answer::Parsed(again) => {
                    if again.same(&program) {
                        Ok(Some(bytes))
                    } else {
                        Ok(None)
                    }
                }
                _ => Ok(None),
            }
        }
        _ => Ok(None),
    }
}

#[test]
fn a_bank_is_spelled_and_parsed_again(rt: HostRuntime) -> Result<(), Fail> {
    let front = "table acct ; queue mail 1 ; outside notify ( who , n ) ; txn pay ( a , b , n ) { ";
    match respelled(rt.alloc(), BANK)? {
        Some(bytes) => assert!(rt;
            bytes.as_slice().starts_with(front.as_bytes()),
            "it begins so"
        ),
        None => assert!(rt; false, "it is the bank again"),
    }
    Ok(())
}

#[test]
fn spellings_are_exact(rt: HostRuntime) -> Result<(), Fail> {
    // a program, and its spelling
    let cases = [
        (
            "helper h(a)=a+2*-a[0];",
            "helper h ( a ) = ( a + ( 2 * ( - a [ 0 ] ) ) ) ; ",
        ),
        (
            "helper h()=\"a\\\"b\\n\\\\\";",
            "helper h ( ) = \"a\\\"b\\n\\\\\" ; ",
        ),
        (
            "txn f(x){if len(x){}else{set x=[1,g(x)];}}",
            "txn f ( x ) { if len ( x ) { } else { set x = [ 1 , g ( x ) ] ; } } ",
        ),
        (
            "flow f(){do await \"c\";try{fail 1;}catch w{return !w&&true;}}",
            "flow f ( ) { do await \"c\" ; try { fail 1 ; } catch w { return ( ( ! w ) && true ) ; } } ",
        ),
        (
            "txn f(k){let r=scan t[k,k++str(1)];each x in r{delete t[x[0]];}}",
            "txn f ( k ) { let r = scan t [ k , ( k ++ str ( 1 ) ) ] ; each x in r { delete t [ x [ 0 ] ] ; } } ",
        ),
    ];
    for (text, want) in cases {
        match respelled(rt.alloc(), text)? {
            Some(bytes) => assert!(rt; bytes.as_slice() == want.as_bytes(), "of {text}"),
            None => assert!(rt; false, "{text} is read again"),
        }
    }
    Ok(())
}
