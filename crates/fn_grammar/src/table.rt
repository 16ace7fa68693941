//! The rules of the grammar, as a table.

ghost use Rattle.std.specs.Prelude.{◌≡◌, map};
ghost use Rattle.fn_grammar.specs.Grammar.{rules};

use crate::expression_rules::{
    ANDS, CMP, COMPARED, CONJ, EXPR, FACTORS, INDEXES, LIST_ITEMS, MORE_ITEMS, MORE_PAREN, NAMED,
    ORS, OUTER, PAREN_LIST, PROD, SUM, TERMS, UNARY,
};
use crate::item_rules::{ITEMS, MORE_NAMES, NAMES, PARAMS};
use crate::statement_rules::{ARGS, ASK, BLOCK, ELSE, KEY, MORE_OUTER, OUTER_LIST, RHS, STMTS};
use crate::symbol::{Part, Symbol};

/// The rules of a part. A rule that no token leads stands last.
pub fn rules(part: Part) -> &'static [&'static [Symbol]]
    ensures { map (λ r. r.now) result.now ≡ rules part }
{
    match part {
        Part::Items => &ITEMS,
        Part::Params => &PARAMS,
        Part::Names => &NAMES,
        Part::MoreNames => &MORE_NAMES,
        Part::Block => &BLOCK,
        Part::Stmts => &STMTS,
        Part::Else => &ELSE,
        Part::Key => &KEY,
        Part::Rhs => &RHS,
        Part::Ask => &ASK,
        Part::Args => &ARGS,
        Part::OuterList => &OUTER_LIST,
        Part::MoreOuter => &MORE_OUTER,
        Part::Outer => &OUTER,
        Part::Expr => &EXPR,
        Part::Ors => &ORS,
        Part::Conj => &CONJ,
        Part::Ands => &ANDS,
        Part::Cmp => &CMP,
        Part::Compared => &COMPARED,
        Part::Sum => &SUM,
        Part::Terms => &TERMS,
        Part::Prod => &PROD,
        Part::Factors => &FACTORS,
        Part::Unary => &UNARY,
        Part::Named => &NAMED,
        Part::Indexes => &INDEXES,
        Part::ParenList => &PAREN_LIST,
        Part::MoreParen => &MORE_PAREN,
        Part::ListItems => &LIST_ITEMS,
        Part::MoreItems => &MORE_ITEMS,
    }
}
