//! The parser: a stack of the symbols that are still to be read, and a stack of trees.

ghost use Rattle.std.specs.Prelude.{◌≡◌, ◌≤◌, ◌<◌, ◌+◌, ◌-◌, ◌∷◌, ◌++◌, [], length};
ghost use Rattle.std.specs.Prelude.{IfOk, IfSome, OnOk, true, false, if◌then◌else◌};
ghost use Rattle.fn_grammar.specs.Trees.{first};
ghost use Rattle.fn_grammar.specs.Letters.{fits};
ghost use Rattle.fn_grammar.specs.Derivation.{start, opens, closes, leads_item, has, deeper, crowded, over};
ghost use Rattle.fn_grammar.specs.Derivation.{after_letter, depth_after, one_more};
ghost use Rattle.fn_grammar.specs.Steps.{AllTame, is_terminal};
ghost use Rattle.fn_grammar.specs.Written.{seen, seen_as, IsToken};
ghost use Rattle.fn_syntax.specs.Machine.{state_of, Spreads, Takes};

use crate::actions::make;
use crate::stack::Stack;
use crate::texts::push_letter;
use crate::trees::{Trees, no_trees};
use fn_grammar::{Letter, Lexeme, Part, Symbol, choose, fits, is_terminal, rules};
use fn_tree::program::Item;
use r3_value::Memory;
use std::alloc::Global;

/// What was read so far, and what is still to be read.
#[derive(Drop)]
pub struct Parser {
    alloc: Global,
    /// The symbols that are still to be read, the next one on top.
    todo: Stack<Symbol>,
    /// The trees of the parts that were read.
    trees: Trees,
    /// How many brackets are open.
    depth: u32,
    /// How many tokens the expression has that is open and stands in no other.
    used: Option<u32>,
}

fn opens(l: Lexeme) -> bool
    ensures { result ≡ opens l }
{
    match l {
        Lexeme::OpenParen | Lexeme::OpenBracket | Lexeme::OpenBrace => true,
        _ => false,
    }
}

fn closes(l: Lexeme) -> bool
    ensures { result ≡ closes l }
{
    match l {
        Lexeme::CloseParen | Lexeme::CloseBracket | Lexeme::CloseBrace => true,
        _ => false,
    }
}

fn leads_item(l: Lexeme) -> bool
    ensures { result ≡ leads_item l }
{
    match l {
        Lexeme::Table
        | Lexeme::Queue
        | Lexeme::Outside
        | Lexeme::Helper
        | Lexeme::Txn
        | Lexeme::Flow => true,
        _ => false,
    }
}

fn is_full(used: Option<u32>) -> bool
    ensures { result ≡ has 1024 used }
{
    match used {
        None => false,
        Some(n) => 1024 <= n,
    }
}

/// A bracket where 64 are open.
fn is_deeper(symbol: Symbol, depth: u32) -> bool
    ensures { result ≡ deeper symbol depth }
{
    match symbol {
        Symbol::Fixed(l) => opens(l) && 64 <= depth,
        _ => false,
    }
}

/// How many brackets are open once the symbol was read.
fn depth_after(symbol: Symbol, depth: u32) -> u32
    requires { deeper symbol depth ≡ false }
    ensures { result ≡ depth_after symbol depth }
{
    match symbol {
        Symbol::Fixed(l) => {
            if opens(l) {
                depth + 1
            } else if closes(l) {
                depth.saturating_sub(1)
            } else {
                depth
            }
        }
        _ => depth,
    }
}

/// One token more of an open expression.
fn one_more(used: Option<u32>) -> Option<u32>
    requires { has 1024 used ≡ false }
    ensures { result ≡ one_more used }
{
    match used {
        None => None,
        Some(n) => Some(n + 1),
    }
}

/// Puts the symbols of a rule on top, the first one last.
fn push_rule(todo: &mut Stack<Symbol>, rule: &[Symbol]) -> Result<(), Memory>
    ensures { OnOk result (todo.new ≡ rule.now ++ todo.old) }
{
    let mut i = rule.len();
    while 0 < i {
        i -= 1;
        todo.push(rule[i])?;
    }
    Ok(())
}

impl Parser {
    /// Nothing was read.
    pub fn new(alloc: Global) -> Result<Parser, Memory>
        ensures todo { IfOk result (λ p. p.todo ≡ Symbol.Part Part.Items ∷ []) }
        ensures state { IfOk result (λ p. state_of p ≡ start) }
    {
        let mut todo = Stack::new(alloc);
        todo.push(Symbol::Part(Part::Items))?;
        Ok(Parser {
            alloc,
            todo,
            trees: no_trees(alloc),
            depth: 0,
            used: None,
        })
    }

    /// The items that were read.
    pub fn into_items(self) -> Vec<Item>
        ensures { result.items ≡ self.trees.items.items }
    {
        let Parser { trees, .. } = self;
        let Trees { items, .. } = trees;
        items
    }

    /// How many parameters the item has so far.
    fn params(&self) -> usize
        ensures { result ≡ length (first [] self.now.trees.lists) }
    {
        match self.trees.lists.top() {
            Some(names) => names.len(),
            None => 0,
        }
    }

    /// An item behind 1,000, or a parameter behind 16.
    fn is_crowded(&self, symbol: Symbol) -> bool
        ensures { result ≡ crowded symbol (state_of self.now) }
    {
        match symbol {
            Symbol::Fixed(l) => leads_item(l) && 1000 <= self.trees.items.len(),
            Symbol::Param => 16 <= self.params(),
            _ => false,
        }
    }

    /// The token passes a limit.
    fn is_over(&self, symbol: Symbol) -> bool
        ensures { result ≡ over symbol (state_of self.now) }
    {
        is_full(self.used) || (is_deeper(symbol, self.depth) || self.is_crowded(symbol))
    }

    /// Reads a token.
    fn read(&mut self, symbol: Symbol, letter: Letter) -> Result<(), Memory>
        requires token { IsToken letter }
        requires fits { fits symbol (seen_as letter) ≡ true }
        requires within { over symbol (state_of self.old) ≡ false }
        ensures state { OnOk result
            (state_of self.new ≡ after_letter symbol (seen_as letter.entry) (state_of self.old)) }
        ensures todo { OnOk result (self.new.todo ≡ self.old.todo) }
    {
        push_letter(self.alloc, symbol, letter, &mut self.trees)?;
        self.depth = depth_after(symbol, self.depth);
        self.used = one_more(self.used);
        Ok(())
    }

    /// Reads the next token by this symbol, if it may be read so.
    fn take(&mut self, symbol: Symbol, next: Option<Letter>) -> Result<bool, Memory>
        requires token { IfSome next IsToken }
        requires terminal { is_terminal symbol ≡ true }
        requires tame { AllTame self.old.todo }
        ensures { IfOk result
            (λ b. Takes b (seen next.entry) (symbol ∷ self.old.todo) (state_of self.old) self.new) }
    {
        match next {
            None => Ok(false),
            Some(letter) => {
                if !fits(symbol, letter) {
                    return Ok(false);
                }
                if self.is_over(symbol) {
                    return Ok(false);
                }
                self.read(symbol, letter)?;
                Ok(true)
            }
        }
    }

    /// Takes a symbol apart that no token reads, if the next token lets it.
    fn spread(&mut self, symbol: Symbol, next: Option<Letter>) -> Result<bool, Memory>
        requires token { IfSome next IsToken }
        requires inner { is_terminal symbol ≡ false }
        requires tame { AllTame (symbol ∷ self.old.todo) }
        ensures { IfOk result
            (λ b. Spreads b (seen next.entry) (symbol ∷ self.old.todo) (state_of self.old) self.new) }
    {
        match symbol {
            Symbol::Part(part) => match choose(rules(part), next) {
                None => Ok(false),
                Some(rule) => {
                    push_rule(&mut self.todo, rule)?;
                    Ok(true)
                }
            },
            Symbol::Make(action) => {
                make(self.alloc, action, &mut self.trees)?;
                Ok(true)
            }
            Symbol::Begin => {
                self.used = Some(0);
                Ok(true)
            }
            Symbol::End => {
                self.used = None;
                Ok(true)
            }
            Symbol::Fixed(_)
            | Symbol::Name
            | Symbol::Param
            | Symbol::Bound
            | Symbol::Number
            | Symbol::Text => Ok(true),
        }
    }

    /// Reads the next token; at the end, reads nothing more. Says whether it may be so.
    pub fn step(&mut self, next: Option<Letter>) -> Result<bool, Memory>
        requires token { IfSome next IsToken }
        requires tame { AllTame self.old.todo }
        ensures { IfOk result
            (λ b. Takes b (seen next.entry) self.old.todo (state_of self.old) self.new) }
    {
        loop {
            match self.todo.pop() {
                None => return Ok(next.is_none()),
                Some(symbol) => {
                    if is_terminal(symbol) {
                        return self.take(symbol, next);
                    }
                    if !self.spread(symbol, next)? {
                        return Ok(false);
                    }
                }
            }
        }
    }
}
