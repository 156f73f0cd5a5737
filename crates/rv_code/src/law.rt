//! Laws of the definitions: functions that do nothing, and whose contracts are the laws.

ghost use Rattle.rv_code.specs.Laws.{DecodingUndoesEncoding, EncodingUndoesDecoding, DecodedIsInForm};

/// The word of an instruction spells that instruction.
#[tactic(auto, using(crate::proofs::RoundTrip::decoded_encoded))]
pub fn decoding_undoes_encoding()
    ensures { DecodingUndoesEncoding }
{}

/// A word that spells an instruction is that instruction's word, and the instruction is one that a word can spell.
#[tactic(auto, using(crate::proofs::RoundTrip::encoded_decoded, crate::proofs::RoundTrip::decoded_in_form))]
pub fn encoding_undoes_decoding()
    ensures undone { EncodingUndoesDecoding }
    ensures in_form { DecodedIsInForm }
{}
