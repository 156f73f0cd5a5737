//! The run of a script, whose lines are put out.

ghost use Rattle.std.specs.Prelude.{◌≡◌, ◌<◌, ℕ, true, List, ◌++◌, IfOk, OnOk, OnErr, map};
ghost use Rattle.std.specs.List.{AllByRecursion, flat_map};
ghost use Rattle.outside.specs.Taken.{TakesPart};
ghost use Rattle.line_form.specs.Lines.{line};
ghost use Rattle.script_form.specs.Script.{orders};
ghost use Rattle.image_form.specs.Rules.{IsImage};
ghost use Rattle.image_form.specs.Views.{viewed};
ghost use Rattle.stop_engine.specs.EngineState.{lines_of};
ghost use Rattle.stop_engine.specs.Transcript.{transcript_bytes};
ghost use Rattle.session.specs.Stages.{WriteEnds};

use image_form::View;
use line_form::Status;
use outside::{PutErr, Sink};
use script_form::Command;
use std::alloc::Global;
use stop_engine::Engine;

// Puts a text as a line, in one piece.
fn put_line<K: Sink>(alloc: Global, text: &[u8], sink: &mut K) -> Result<(), Status>
    ensures ends { WriteEnds result (K.state sink.old).fault_count (K.state sink.new).fault_count }
    ensures telling { (K.state sink.new).tells ≡ (K.state sink.old).tells }
    ensures whole { OnOk result ((K.state sink.old).tells ≡ true
        → (K.state sink.new).taken ≡ (K.state sink.old).taken ++ line text.now) }
    ensures part { OnErr result
        ((K.state sink.old).tells ≡ true
        → TakesPart (line text.now) (K.state sink.old).taken (K.state sink.new).taken) }
{
    let Ok(mut piece) = text.to_vec(alloc) else {
        return Err(Status::NoMemory);
    };
    let Ok(()) = piece.push(b'\n') else {
        return Err(Status::NoMemory);
    };
    match sink.put(alloc, &piece) {
        Ok(()) => Ok(()),
        Err(PutErr::Failed) => Err(Status::WriteFault),
        Err(PutErr::NoMemory) => Err(Status::NoMemory),
    }
}

/// Puts the lines one after the other.
pub fn put_lines<K: Sink>(alloc: Global, lines: &[Vec<u8>], sink: &mut K) -> Result<(), Status>
    ensures ends { WriteEnds result (K.state sink.old).fault_count (K.state sink.new).fault_count }
    ensures telling { (K.state sink.new).tells ≡ (K.state sink.old).tells }
    ensures whole { OnOk result
        ((K.state sink.old).tells ≡ true
        → (K.state sink.new).taken ≡ (K.state sink.old).taken ++ flat_map line (map (λ l. l.items) lines.now)) }
    ensures part { OnErr result
        ((K.state sink.old).tells ≡ true
        → TakesPart (flat_map line (map (λ l. l.items) lines.now)) (K.state sink.old).taken (K.state sink.new).taken) }
{
    for text in lines {
        put_line(alloc, text, sink)?;
    }
    Ok(())
}

// Carries out the commands, and puts each line that they print.
fn carry_out<K: Sink>(
    alloc: Global,
    engine: &mut Engine<'_>,
    commands: &[Command],
    sink: &mut K,
) -> Result<(), Status>
    ensures ends { WriteEnds result (K.state sink.old).fault_count (K.state sink.new).fault_count }
    ensures telling { (K.state sink.new).tells ≡ (K.state sink.old).tells }
    ensures whole { OnOk result
        ((K.state sink.old).tells ≡ true
        → (K.state sink.new).taken
        ≡ (K.state sink.old).taken ++ flat_map line (lines_of engine.old (orders commands.now))) }
    ensures part { OnErr result
        ((K.state sink.old).tells ≡ true
        → TakesPart (flat_map line (lines_of engine.old (orders commands.now)))
        (K.state sink.old).taken (K.state sink.new).taken) }
{
    for command in commands {
        let Ok(lines) = engine.answer(alloc, command) else {
            return Err(Status::NoMemory);
        };
        put_lines(alloc, &lines, sink)?;
    }
    Ok(())
}

/// Plays a script on an image: puts each line of its transcript, with this input, which is of bytes, and at most so
/// many instructions.
pub fn play<K: Sink>(
    alloc: Global,
    image: &View<'_>,
    commands: &[Command],
    input: &[u8],
    limit: u64,
    sink: &mut K,
) -> Result<(), Status>
    requires { IsImage (viewed image.now) }
    ensures bytes { AllByRecursion (λ b. b < 256) input.now }
    ensures ends { WriteEnds result (K.state sink.old).fault_count (K.state sink.new).fault_count }
    ensures telling { (K.state sink.new).tells ≡ (K.state sink.old).tells }
    ensures whole { OnOk result
        ((K.state sink.old).tells ≡ true
        → (K.state sink.new).taken ≡ (K.state sink.old).taken
        ++ transcript_bytes (viewed image.now) (orders commands.now) input.now limit) }
    ensures part { OnErr result
        ((K.state sink.old).tells ≡ true
        → TakesPart (transcript_bytes (viewed image.now) (orders commands.now) input.now limit)
        (K.state sink.old).taken (K.state sink.new).taken) }
{
    let Ok(mut engine) = Engine::new(alloc, image, input, limit) else {
        return Err(Status::NoMemory);
    };
    carry_out(alloc, &mut engine, commands, sink)
}
