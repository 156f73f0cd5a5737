//! The typed program of a text.

ghost use Rattle.std.specs.Prelude.{IfOk};
ghost use Rattle.c_flow.specs.Tables.{Fits32};
ghost use Rattle.c_type_laws.specs.Laws.{IsWellFormed};
ghost use Rattle.c_type_laws.specs.Names.{HasNames};
ghost use Rattle.c_type_laws.specs.Spots.{HasSpots};
ghost use Rattle.c_source.specs.Sources.{program_of_source};
ghost use Rattle.c_tree.specs.Programs.{program_view};
ghost use Rattle.debug_records.specs.Refusals.{Answers};

use c_parse::parse;
use c_token::tokens;
use c_tree::Program;
use c_type::check;
use debug_records::SourceErr;
use std::alloc::Global;

/// The typed program of a source. Refused for the first rule of C that the source breaks: of tokens, else of the
/// grammar, else of names
/// and types (C11, clauses 6.2 to 6.9, as far as the language goes). The program keeps the laws of accepted programs,
/// and its places and variables fit in
/// numbers of 32 bits.
/// Its variables and functions have names, its arrays have elements, there is room for its literals, and what it
/// declares stands within the text.
#[tactic(auto, using(crate::proofs::Sources::tokens_refused, crate::proofs::Sources::tree_refused, crate::proofs::Sources::program_refused, crate::proofs::Sources::program_found))]
pub fn program(alloc: Global, text: &[u8]) -> Result<Program, SourceErr>
    ensures program { Answers program_view result (program_of_source text.now) }
    ensures laws { IfOk result (λ p. IsWellFormed (program_view p)) }
    ensures fits { IfOk result (λ p. Fits32 (program_view p)) }
    ensures names { IfOk result (λ p. HasNames (program_view p)) }
    ensures spots { IfOk result (λ p. HasSpots (program_view p)) }
{
    let tokens = tokens(alloc, text)?;
    let tree = parse(alloc, &tokens)?;
    let program = check(alloc, tree)?;
    Ok(program)
}
