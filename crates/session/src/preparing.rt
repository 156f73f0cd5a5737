//! From the texts to what is played.

ghost use Rattle.std.specs.Prelude.{◌≡◌, [], IfOk, Ok, map};
ghost use Rattle.debug_records.specs.declared.mode.Mode.TheVariants.{Slots};
ghost use Rattle.c_flow.specs.Tables.{Fits32};
ghost use Rattle.c_type_laws.specs.Laws.{IsWellFormed};
ghost use Rattle.c_type_laws.specs.Names.{HasNames};
ghost use Rattle.c_type_laws.specs.Spots.{HasSpots};
ghost use Rattle.c_source.specs.Sources.{program_of_source};
ghost use Rattle.c_tree.specs.Programs.{program_view};
ghost use Rattle.debug_records.specs.Change.{letters};
ghost use Rattle.image_form.specs.Form.{form};
ghost use Rattle.image_form.specs.Rules.{IsImage};
ghost use Rattle.image_form.specs.Spelling.{spelling};
ghost use Rattle.image_build.specs.Truthful.{RunsTrue};
ghost use Rattle.image_build.specs.ProgramImageShown.{ShowsAll};
ghost use Rattle.image_build.specs.Tables.{HasTablesOf};
ghost use Rattle.session.specs.Behind.{ComesOfProgram};
ghost use Rattle.session.specs.Listed.{AreLinesOf};
ghost use Rattle.session.specs.Served.{CanRun};
ghost use Rattle.session.specs.Stages.{FrontEnds, ImageEnds, ListEnds, MakeEnds, ScriptEnds};

use c_tree::Program;
use debug_records::{Mode, PassName, SourceErr};
use image_build::{image_of_program, unit_of};
use image_form::{Image, ImageErr, View};
use line_form::Status;
use pass_law::Pass;
use script_form::{Command, ScriptErr};
use session_lines::change_lines;
use std::alloc::{AllocError, Global};

/// The image of a source, and its bytes.
#[derive(Drop)]
pub struct Made {
    pub image: Image,
    pub bytes: Vec<u8>,
}

/// The image of a program, and its bytes.
fn image_for(
    alloc: Global,
    program: Program,
    passes: &[Box<dyn Pass>],
    names: &[PassName],
    mode: Mode,
) -> Result<Made, AllocError>
    requires laws { IsWellFormed (program_view program) }
    requires fits { Fits32 (program_view program) }
    requires names { HasNames (program_view program) }
    requires spots { HasSpots (program_view program) }
    requires run { CanRun (λ p. named p) passes.now (map letters names.now) }
    ensures image { IfOk result (λ made. IsImage (form made.image)) }
    ensures bytes { IfOk result (λ made. made.bytes.items ≡ spelling (form made.image)) }
    ensures runs { IfOk result (λ made. RunsTrue (program_view program) (form made.image)) }
    ensures shows { map letters names.now ≡ [] → mode ≡ Slots → IfOk result (λ made. ShowsAll (form made.image)) }
    ensures tables { IfOk result (λ made. HasTablesOf (program_view program) (form made.image)) }
    ensures comes { IfOk result (λ made.
        ComesOfProgram (λ p. named p) (λ p. (steps p).leads) passes.now (program_view program)
        (map letters names.now) mode (form made.image)) }
{
    let build = image_of_program(alloc, program, passes, names, mode)?;
    Ok(Made {
        image: build.image,
        bytes: build.bytes,
    })
}

/// The program of a source, which else is refused for the first rule of C that it breaks.
fn understood(alloc: Global, source: &[u8]) -> Result<Program, Status>
    ensures ends { FrontEnds result source.now }
    ensures program { IfOk result (λ program. program_of_source source.now ≡ Ok (program_view program)) }
    ensures laws { IfOk result (λ program. IsWellFormed (program_view program)) }
    ensures fits { IfOk result (λ program. Fits32 (program_view program)) }
    ensures names { IfOk result (λ program. HasNames (program_view program)) }
    ensures spots { IfOk result (λ program. HasSpots (program_view program)) }
{
    match c_source::program(alloc, source) {
        Ok(program) => Ok(program),
        Err(SourceErr::Refused(code, line)) => Err(Status::SourceRefused(code, line)),
        Err(SourceErr::NoMemory) => Err(Status::NoMemory),
    }
}

/// The image of a source after the passes of these names, and its bytes. Refused for the first rule of C that the
/// source breaks; and by E11 and line 1 where it breaks none and is not compiled so far.
pub fn make(
    alloc: Global,
    source: &[u8],
    passes: &[Box<dyn Pass>],
    names: &[PassName],
    mode: Mode,
) -> Result<Made, Status>
    requires { CanRun (λ p. named p) passes.now (map letters names.now) }
    ensures { MakeEnds (λ p. named p) (λ p. (steps p).leads) passes.now result source.now
        (map letters names.now) mode }
{
    let program = understood(alloc, source)?;
    match image_for(alloc, program, passes, names, mode) {
        Ok(made) => Ok(made),
        Err(_) => Err(Status::NoMemory),
    }
}

/// The lines of all changes that the passes of these names make in a program.
fn lines_for(
    alloc: Global,
    program: &Program,
    passes: &[Box<dyn Pass>],
    names: &[PassName],
) -> Result<Vec<Vec<u8>>, AllocError>
    requires laws { IsWellFormed (program_view program.now) }
    requires fits { Fits32 (program_view program.now) }
    requires run { CanRun (λ p. named p) passes.now (map letters names.now) }
    ensures { IfOk result (λ lines.
        AreLinesOf (λ p. named p) (λ p. (steps p).leads) passes.now (program_view program.now) (map letters names.now)
        (map (λ line. line.items) lines.items)) }
{
    let unit = unit_of(alloc, program, passes, names)?;
    let lines = change_lines(alloc, program, unit.log.changes())?;
    Ok(lines)
}

/// The lines of the changes that the passes of these names make in a source, which else is refused for the first rule
/// of C that it breaks.
pub fn list(
    alloc: Global,
    source: &[u8],
    passes: &[Box<dyn Pass>],
    names: &[PassName],
) -> Result<Vec<Vec<u8>>, Status>
    requires { CanRun (λ p. named p) passes.now (map letters names.now) }
    ensures { ListEnds (λ p. named p) (λ p. (steps p).leads) passes.now result source.now (map letters names.now) }
{
    let program = understood(alloc, source)?;
    match lines_for(alloc, &program, passes, names) {
        Ok(lines) => Ok(lines),
        Err(_) => Err(Status::NoMemory),
    }
}

/// The commands of a script, which else is refused for its first line that breaks a rule.
pub fn read_script(alloc: Global, script: &[u8]) -> Result<Vec<Command>, Status>
    ensures { ScriptEnds result script.now }
{
    match script_form::read(alloc, script) {
        Ok(commands) => Ok(commands),
        Err(ScriptErr::Refused(code, line)) => Err(Status::ScriptRefused(code, line)),
        Err(ScriptErr::NoMemory) => Err(Status::NoMemory),
    }
}

/// The image that bytes spell, lent from them, which else are refused for the first rule that they break.
pub fn view_image(alloc: Global, bytes: &[u8]) -> Result<View<'_>, Status>
    ensures { ImageEnds result bytes.now }
{
    match image_form::view(alloc, bytes) {
        Ok(image) => Ok(image),
        Err(ImageErr::Refused(code, offset)) => Err(Status::ImageRefused(code, offset)),
        Err(ImageErr::NoMemory) => Err(Status::NoMemory),
    }
}
