//! The engine of a session.

ghost use Rattle.std.specs.Prelude.{◌≡◌, IfOk, OnOk, OnErr, ◌⊎◌, ◌↔◌, false, [], ◌∷◌, map, length, ◌+◌};
ghost use Rattle.image_form.specs.Rules.{IsImage};
ghost use Rattle.image_form.specs.Views.{viewed};
ghost use Rattle.script_form.specs.Script.{mark, order_of};
ghost use Rattle.line_form.specs.Lines.{no_stop_line};
ghost use Rattle.stop_engine.specs.Activations.{activation_of};
ghost use Rattle.stop_engine.specs.AtStop.{frames_at, locals_at};
ghost use Rattle.stop_engine.specs.Breaks.{break_places};
ghost use Rattle.stop_engine.specs.EngineState.{Answers, HasExecuted, HasMarked, HasRun, LeavesOff, Wants, fresh_engine};
ghost use Rattle.stop_engine.specs.Halting.{halt_at};
ghost use Rattle.stop_engine.specs.Marking.{aim_of};
ghost use Rattle.stop_engine.specs.Shown.{locals_lines, where_lines};
ghost use Rattle.stop_engine.specs.Stopping.{IsAtNoStop};
ghost use Rattle.stop_engine.specs.Transcript.{at_stop, marked_line, ran, run_lines, sight_of_name};
ghost use Rattle.stop_engine.specs.Visible.{visible_of};
ghost use Rattle.stop_engine_tables.specs.Tables.{AreTablesOf};
ghost use Rattle.stop_engine_texts.specs.Sight.{sight_line, sight_of};

use crate::activations::{Frame, activation_lines, activations};
use crate::breaks::{break_places, marked_line};
use crate::depths::{finish_stops, next_stops};
use crate::function_names::{FunctionNames, function_names};
use crate::halt::Halt;
use crate::lines::halt_line;
use crate::locals::{Local, locals_lines, visible_at};
use crate::run::Run;
use crate::stops::{Marks, Stops};
use image_form::View;
use line_form::{no_stop_line, out_lines};
use script_form::{Command, Target};
use std::alloc::{AllocError, Global};
use std::marker::Model;
use stop_engine_tables::{Tables, tables_of};
use stop_engine_texts::{Shown, name_shown, shown_line};

/// A run of an image from halt to halt, what is seen where it stands, and the answers to the commands of a script.
#[derive(Drop)]
pub struct Engine<'a> {
    run: Run<'a>,
    tables: Tables,
    functions: FunctionNames<'a>,
    marks: Marks,
    has_quit: bool,
}

impl<'a> Model for Engine<'a> {
    ghost use Rattle.std.specs.Prelude.{◌≡◌, ◌+◌, length};
    ghost use Rattle.stop_engine.specs.EngineState.{EngineState};
    ghost use Rattle.stop_engine.specs.FunctionNames.{AreFunctionNamesOf};
    ghost use Rattle.stop_engine_tables.specs.Tables.{AreTablesOf};

    ghost Value = { EngineState };

    ghost view = { λ e. record { run = e.run; marks = e.marks.places; has_quit = e.has_quit } };

    ghost invariant = { λ e. AreTablesOf e.run.form e.tables × AreFunctionNamesOf e.run.form e.functions
        × (e.marks.bound ≡ length e.run.form.places + 1) };
}

impl<'a> Engine<'a> {
    /// The engine of an image, before the first instruction of a run on this input, of at most `limit` instructions.
    /// `AllocError` where memory for the machine or for a table of the image was refused.
    pub fn new(
        alloc: Global,
        image: &View<'a>,
        input: &[u8],
        limit: u64,
    ) -> Result<Engine<'a>, AllocError>
        requires { IsImage (viewed image.now) }
        ensures { IfOk result (λ engine. engine ≡ fresh_engine (viewed image.now) input.now limit) }
    {
        let run = Run::new(alloc, image, input, limit)?;
        let tables = tables_of(alloc, image)?;
        let functions = function_names(alloc, image, &tables)?;
        Ok(Engine {
            run,
            tables,
            functions,
            marks: Marks::new(alloc, image.place_count() + 1)?,
            has_quit: false,
        })
    }

    /// Runs to the next of these stops or to the ending, and says where it halted. At least one instruction is executed
    /// before a stop; behind an ending nothing runs any more, and the ending is answered again. `AllocError` where
    /// memory for 65,536 more bytes of output was refused: no event is lost, and a later call goes on.
    pub fn run_to(&mut self, stops: &Stops) -> Result<Halt, AllocError>
        ensures ran { OnOk result (HasRun (aim_of stops.now) self.old.run self.new.run) }
        ensures halt { IfOk result (λ halt. halt_at self.new.run.form self.new.run.position ≡ Some halt) }
        ensures wanting { OnErr result (Wants (aim_of stops.now) self.old.run self.new.run) }
        ensures executed { HasExecuted self.old.run self.new.run }
        ensures marks { self.new.marks ≡ self.old.marks }
        ensures quit { self.new.has_quit ≡ self.old.has_quit }
    {
        self.run.run_to(stops)
    }

    /// The output of the last run, with that of the runs directly before it that wanted memory.
    pub fn taken(&self) -> &[u8]
        ensures { result.now ≡ self.now.run.output }
    {
        self.run.taken()
    }

    /// What is shown of a name where the engine stands: at no stop nothing. `AllocError` where memory for the texts was
    /// refused.
    pub fn show(&self, alloc: Global, name: &str) -> Result<Shown, AllocError>
        ensures { IfOk result (λ shown. sight_of shown ≡ sight_of_name self.now.run.form self.now.run.position name.now) }
    {
        let Some(stop) = self.run.stop() else {
            return Ok(Shown::NoStop);
        };
        Ok(name_shown(
            alloc,
            &stop.image,
            stop.machine,
            &self.tables,
            stop.place,
            name.as_bytes(),
        )?)
    }

    /// The variables that are visible where the engine stands, each by its own row, in the order of their positions: at
    /// no stop none. `AllocError` where memory for them was refused.
    pub fn locals(&self, alloc: Global) -> Result<Vec<Local>, AllocError>
        ensures { IfOk result
            (λ locals. map visible_of locals.items ≡ locals_at self.now.run.form self.now.run.position) }
    {
        let Some(stop) = self.run.stop() else {
            return Ok(Vec::new(alloc));
        };
        Ok(visible_at(alloc, &stop.image, stop.machine, &self.tables, stop.place)?)
    }

    /// The activations that are live where the engine stands, the innermost first: none exactly at no stop.
    /// `AllocError` where memory for them was refused.
    pub fn frames(&self, alloc: Global) -> Result<Vec<Frame>, AllocError>
        ensures frames { IfOk result
            (λ frames. map activation_of frames.items ≡ frames_at self.now.run.form self.now.run.position) }
        ensures none { IfOk result (λ frames. frames.items ≡ [] ↔ IsAtNoStop self.now.run.position) }
    {
        let Some(stop) = self.run.stop() else {
            return Ok(Vec::new(alloc));
        };
        Ok(activations(alloc, &stop.image, stop.machine, &self.tables, stop.place)?)
    }

    /// The lines that a command of a script prints, as texts without their ends. `AllocError` where memory for the
    /// output or for a line was refused.
    pub fn answer(&mut self, alloc: Global, command: &Command) -> Result<Vec<Vec<u8>>, AllocError>
        ensures answered { IfOk result (λ lines.
            Answers self.old self.new (order_of command.now) (map (λ line. line.items) lines.items)) }
        ensures wanting { OnErr result (LeavesOff self.old self.new) }
        ensures executed { HasExecuted self.old.run self.new.run }
    {
        if self.has_quit {
            return Ok(Vec::new(alloc));
        }
        match command {
            Command::Break(target) => self.set_marks(alloc, target),
            Command::Step => run_lines(alloc, &mut self.run, &self.tables, &Stops::Any),
            Command::Continue => run_lines(
                alloc,
                &mut self.run,
                &self.tables,
                &Stops::At(&self.marks),
            ),
            Command::Next => {
                let stops = next_stops(&self.run, &self.marks);
                run_lines(alloc, &mut self.run, &self.tables, &stops)
            }
            Command::Finish => match finish_stops(&self.run, &self.marks) {
                Some(stops) => run_lines(alloc, &mut self.run, &self.tables, &stops),
                None => no_stop(alloc),
            },
            Command::Print(name) => self.print(alloc, name),
            Command::Locals => self.locals_lines(alloc),
            Command::Where => self.where_lines(alloc),
            Command::Quit => {
                self.has_quit = true;
                Ok(Vec::new(alloc))
            }
        }
    }

    /// Marks what `break` names, and says which places these are.
    fn set_marks(&mut self, alloc: Global, target: &Target) -> Result<Vec<Vec<u8>>, AllocError>
        ensures marked { OnOk result (HasMarked (mark target.now) self.old self.new) }
        ensures lines { IfOk result (λ lines.
            map (λ line. line.items) lines.items ≡ marked_line (mark target.now)
            (break_places self.old.run.form (mark target.now)) ∷ []) }
        ensures kept { OnErr result (self.new ≡ self.old) }
        ensures run { self.new.run ≡ self.old.run }
    {
        let places = break_places(alloc, self.run.table(), &self.functions, target)?;
        let line = marked_line(alloc, target, &places)?;
        let lines = vec![in alloc; line]?;
        self.marks.mark_all(&places);
        Ok(lines)
    }

    /// The line of a name where the engine stands.
    fn print(&self, alloc: Global, name: &str) -> Result<Vec<Vec<u8>>, AllocError>
        ensures { IfOk result (λ lines. map (λ line. line.items) lines.items
            ≡ sight_line name.now (sight_of_name self.now.run.form self.now.run.position name.now) ∷ []) }
    {
        let shown = self.show(alloc, name)?;
        let line = shown_line(alloc, name.as_bytes(), &shown)?;
        Ok(vec![in alloc; line]?)
    }

    /// The lines of all visible variables where the engine stands.
    fn locals_lines(&self, alloc: Global) -> Result<Vec<Vec<u8>>, AllocError>
        ensures { IfOk result (λ lines. map (λ line. line.items) lines.items
            ≡ at_stop self.now.run.form self.now.run.position (locals_lines self.now.run.form)) }
    {
        let Some(stop) = self.run.stop() else {
            return Ok(no_stop(alloc)?);
        };
        let locals = visible_at(alloc, &stop.image, stop.machine, &self.tables, stop.place)?;
        Ok(locals_lines(alloc, &locals)?)
    }

    /// The lines of the activations that are live where the engine stands.
    fn where_lines(&self, alloc: Global) -> Result<Vec<Vec<u8>>, AllocError>
        ensures { IfOk result (λ lines. map (λ line. line.items) lines.items
            ≡ at_stop self.now.run.form self.now.run.position (where_lines self.now.run.form)) }
    {
        let Some(stop) = self.run.stop() else {
            return Ok(no_stop(alloc)?);
        };
        let frames = activations(alloc, &stop.image, stop.machine, &self.tables, stop.place)?;
        Ok(activation_lines(alloc, &frames)?)
    }
}

/// The one line that says that there is no stop.
fn no_stop(alloc: Global) -> Result<Vec<Vec<u8>>, AllocError>
    ensures { IfOk result (λ lines. map (λ line. line.items) lines.items ≡ no_stop_line ∷ []) }
{
    let line = no_stop_line(alloc)?;
    Ok(vec![in alloc; line]?)
}

/// Runs to the next of these stops or to the ending. The lines are the output on the way, and where the run then
/// stands.
fn run_lines(
    alloc: Global,
    run: &mut Run,
    tables: &Tables,
    stops: &Stops,
) -> Result<Vec<Vec<u8>>, AllocError>
    requires { AreTablesOf run.old.form tables.now }
    ensures ran { OnOk result (HasRun (aim_of stops.now) run.old run.new) }
    ensures lines { IfOk result (λ lines. map (λ line. line.items) lines.items
        ≡ run_lines run.old.form run.old.limit (ran run.old.form (aim_of stops.now) run.old.position run.old.events)) }
    ensures wanting { OnErr result
        (Wants (aim_of stops.now) run.old run.new ⊎ HasRun (aim_of stops.now) run.old run.new) }
    ensures executed { HasExecuted run.old run.new }
{
    let halt = run.run_to(stops)?;
    let mut lines = out_lines(alloc, run.taken())?;
    let line = halt_line(alloc, &run.table().image(), tables, run.limit(), halt)?;
    lines.push(line)?;
    Ok(lines)
}
