//! The tree of a list of tokens.

ghost use Rattle.std.specs.Prelude.{◌≡◌, map, IfOk, IfErr};
ghost use Rattle.c_parse.specs.Files.{IsTreeOf, HasNoTree};
ghost use Rattle.c_token.specs.Lexemes.{lexemes};
ghost use Rattle.c_tree.specs.Trees.{tree_view};
ghost use Rattle.debug_records.specs.Refusals.{Answers};
ghost use Rattle.c_parse.specs.Reading.{last_line, tree_of, RefusedFor};

use crate::file::items;
use c_parse_tokens::{ParseErr, Stuck, spot_at};
use c_token::Token;
use c_tree::Tree;
use debug_records::{Code, SourceErr};
use std::alloc::Global;

/// How deep tokens may be nested.
const NESTING: u32 = 64;

/// The line of the last token, from 1; 0 where there is none.
#[tactic(auto, using(c_parse_tokens::proofs::Tokens::length_lexemes, c_parse_tokens::proofs::Tokens::lexemes_drop), unfolding(crate::specs::Reading::last_line))]
fn last_line(tokens: &[Token]) -> u32
    ensures { result ≡ last_line (lexemes tokens.now) }
{
    if tokens.is_empty() {
        return 0;
    }
    let (_, last) = tokens.split_at(tokens.len() - 1);
    spot_at(last).line
}

/// How a source is refused whose reading stops.
fn refused(tokens: &[Token], error: ParseErr) -> SourceErr
    ensures { RefusedFor (lexemes tokens.now) error result }
{
    match error {
        ParseErr::Stuck(Stuck::At(code, line)) => SourceErr::Refused(code, line),
        ParseErr::Stuck(Stuck::AtEnd) => SourceErr::Refused(
            Code::UNEXPECTED_TOKEN,
            last_line(tokens),
        ),
        ParseErr::NoMemory => SourceErr::NoMemory,
    }
}

/// The tree that the tokens of a source make.
#[tactic(auto, unfolding(crate::specs::Reading::tree_of))]
fn tree(alloc: Global, tokens: &[Token]) -> Result<Tree, SourceErr>
    ensures { Answers tree_view result (tree_of (lexemes tokens.now)) }
{
    match items(alloc, NESTING, tokens) {
        Ok(items) => Ok(Tree { items }),
        Err(error) => Err(refused(tokens, error)),
    }
}

/// The tree that the tokens of a source make.
///
/// Refused before the first token that no construct takes behind those before it, by E11 for a keyword and by E10 for
/// another token;
/// by L02 where a construct takes it that is nested over 64 deep. At the end of the tokens E10 has the line of the last
/// one.
#[tactic(auto, using(crate::proofs::Trees::answer_spelled, crate::proofs::Trees::answer_refused))]
pub fn parse(alloc: Global, tokens: &[Token]) -> Result<Tree, SourceErr>
    ensures exact { Answers tree_view result (tree_of (lexemes tokens.now)) }
    ensures spelled { IfOk result (λ t. IsTreeOf (lexemes tokens.now) (tree_view t)) }
    ensures none_spelled { IfErr result (λ e. HasNoTree (lexemes tokens.now) e) }
{
    tree(alloc, tokens)
}
