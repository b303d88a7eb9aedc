//! Laws of sessions: replaying a session's record or its journal rebuilds the session. The functions do nothing at run
//! time; each gives callers a proved fact.
#![tactic(auto)]

ghost use Rattle.std.specs.Prelude.{◌≡◌, ℕ, ◌++◌, ◌*◌, List, [], map, replicate, filter, None, Some, true, false};
ghost use Rattle.std.specs.Option.{option_and_then};
ghost use Rattle.xw_words.specs.Dictionary.{IsDictionary, known_words, no_words};
ghost use Rattle.xw_words.specs.WordList.{listed_in};
ghost use Rattle.xw_grid.specs.declared.cell.Direction.{Direction};
ghost use Rattle.xw_grid.specs.declared.cell.Direction.TheVariants.{Across, Down};
ghost use Rattle.xw_grid.specs.declared.cell.Side.TheVariants.{Right, Below};
ghost use Rattle.xw_grid.specs.declared.cell.Square.TheVariants.{Open};
ghost use Rattle.xw_grid.specs.declared.cell.Symmetry.TheVariants as kinds;
ghost use Rattle.xw_grid.specs.Grid.{IsGrid, cells};
ghost use Rattle.xw_grid.specs.Edit.{blank};
ghost use Rattle.xw_grid.specs.Clue.{no_clues, is_circled};
ghost use Rattle.xw_files.specs.Puz.Board.{puzzle_at};
ghost use Rattle.xw_files.specs.Text.Shape.{all_of};
ghost use Rattle.xw_commands.specs.Line.{trimmed};
ghost use Rattle.xw_answers.specs.Escape.{text_spelled, escaped_text, has_nul};
ghost use Rattle.xw_commands.specs.declared.change.Change.{Change};
ghost use Rattle.xw_commands.specs.declared.command.Field.{Field};
ghost use Rattle.xw_session.specs.declared.session.recording.Section.TheVariants as sections;
ghost use Rattle.xw_answers.specs.declared.record.Part.TheVariants as parts;
ghost use Rattle.xw_session.specs.State.{SessionState};
ghost use Rattle.xw_session.specs.Put.{target_of, has_target, with_text_at};
ghost use Rattle.xw_answers.specs.Record.{known_counts, text_commands};
ghost use Rattle.xw_session.specs.Record.{section_commands};
ghost use Rattle.xw_session_laws.specs.Replay.{IsFresh, SessionsBegin, SessionsOpen, SessionsStay, CommandsMakeSessionsAgain, LinesAreReadAgain};
ghost use Rattle.xw_session_laws.specs.Replay.{LinesMakeSessionsAgain, AnsweredLinesMakeSessionsAgain, RecordsAreRefusedForMemoryOnly, replayed, bared};
ghost use Rattle.xw_session_laws.specs.Replay.{with_grid, with_words, clues_of, ComeFirst, BarsAreOnEdges, barred, barred_right, AreFrom, AreTextsFrom};
ghost use Rattle.xw_session_laws.specs.Journals.{JournalsMakeSessionsAgain, JournalsHaveWholeLines, AnsweredJournalsMakeSessionsAgain};
ghost use Rattle.xw_session_laws.specs.Journals.{JournalsAreRefusedForMemoryOnly, JournalsAreCutAtLines, JournalFilesAreCutAtLines, RunsAreJournaled, BrokenRunsAreJournaled};
ghost use Rattle.xw_session_laws.specs.Journals.{StoppedRunsAreJournaled, JournaledRunsAreMadeAgain, BegunJournalsAreMadeAgain, LinesArePlain};
ghost use Rattle.xw_session_laws.specs.Journals.{RunsLeaveJournals};
ghost use Rattle.xw_session_laws.specs.Resumed.{LinesAreResumed, RecordsAreResumed, JournalsAreResumed};
ghost use Rattle.xw_lines.specs.Cut.{ended_lines, last_piece, with_lfs, AllHaveNoLf, HasNoLf};

use xw_lines::{Sink, Source};

/// A text splits into lines in exactly one way: its complete lines, each with its LF, and the rest without an LF.
pub fn lines_are_cut_at_each_lf()
    ensures whole { (text : List ℕ) → text ≡ with_lfs (ended_lines text) (last_piece text) }
    ensures lines { (text : List ℕ) → AllHaveNoLf (ended_lines text) }
    ensures piece { (text : List ℕ) → HasNoLf (last_piece text) }
    ensures only { (lines : List (List ℕ)) (rest : List ℕ) → AllHaveNoLf lines → HasNoLf rest
        → ended_lines (with_lfs lines rest) ≡ lines }
    ensures only_piece { (lines : List (List ℕ)) (rest : List ℕ) → AllHaveNoLf lines → HasNoLf rest
        → last_piece (with_lfs lines rest) ≡ rest }
{}

/// A text written with escapes is read back unchanged. Its spelling has no LF, and no space or tab at either end.
pub fn what_is_spelled_reads_back()
    ensures back { (text : List ℕ) → text_spelled (escaped_text text) ≡ Some text }
    ensures line { (text : List ℕ) → HasNoLf (escaped_text text) }
    ensures ends { (text : List ℕ) → trimmed (escaped_text text) ≡ escaped_text text }
{}

/// Executing two lists of commands in a row equals executing the second on the state that the first leaves.
pub fn commands_follow_one_another()
    ensures { (state : SessionState) (front rest : List Change)
        → replayed state (front ++ rest) ≡ option_and_then (λ mid. replayed mid rest) (replayed state front) }
{}

/// The word commands of a record rebuild the dictionary: the words in the same order, each with its grade and what was
/// done to it, and the least grade. The session must start with the same words, and nothing done to them: none is left
/// out or struck, and a word of the start has another grade now only if it came back with it.
pub fn words_are_made_again()
    ensures { (state made : SessionState) → IsDictionary state.engine.words → IsDictionary made.engine.words
        → state.engine.words.least ≡ 0
        → made.begun ≡ known_counts state.engine.words
        → ((count : ℕ) → ComeFirst (known_words state.engine.words count) (known_words made.engine.words count))
        → replayed state (section_commands made sections.Words) ≡ Some (with_words state made.engine.words) }
{}

/// The text commands of a record put a text of any length into its field.
pub fn texts_are_made_again()
    ensures { (state : SessionState) (field : Field) (text : List ℕ) → has_target state.engine.grid (target_of field) ≡ true → has_nul text ≡ false
        → replayed state (text_commands field text) ≡ Some (with_text_at state (target_of field) text) }
{}

/// The `size` command of a record gives a blank grid of this size without clues and circles, `sym` restores the
/// symmetry, and `watch` turns the watch on or off.
pub fn size_symmetry_and_watch_are_made_again()
    ensures size { (state made : SessionState) → IsGrid made.engine.grid
        → replayed state (section_commands made sections.Size) ≡ Some (record state {
          engine = record { grid = blank made.engine.grid.width made.engine.grid.height; words = state.engine.words };
          clues = no_clues;
          circles = [];
        }) }
    ensures symmetry { (state made : SessionState) → IsGrid made.engine.grid
        → state.engine.grid.width ≡ made.engine.grid.width → state.engine.grid.height ≡ made.engine.grid.height
        → replayed state (section_commands made sections.Symmetry) ≡ Some (record state {
          engine = record state.engine { grid = record state.engine.grid { symmetry = made.engine.grid.symmetry } };
        }) }
    ensures watch { (state made : SessionState)
        → replayed state (section_commands made sections.Watch) ≡ Some (record state { is_watched = made.is_watched }) }
{}

/// The circle commands of a record, executed on a blank grid, restore the circles of all cells of the grid, also those
/// on blocks.
pub fn circles_are_made_again()
    ensures { (state made : SessionState) → IsGrid made.engine.grid
        → replayed (record (with_grid state (blank made.engine.grid.width made.engine.grid.height)) { circles = [] }) (section_commands made (sections.Cells parts.Circles))
        ≡ Some (record (with_grid state (blank made.engine.grid.width made.engine.grid.height)) { circles = filter (is_circled made.circles) (cells made.engine.grid) }) }
{}

/// Circles stored in reading order, all inside the grid, equal the list of circled cells of the grid.
pub fn circles_are_kept_in_order()
    ensures { (state : SessionState) → AreFrom state.engine.grid 0 state.circles
        → filter (is_circled state.circles) (cells state.engine.grid) ≡ state.circles }
{}

/// The clue commands of a record restore all clues, also those without a light.
pub fn clues_are_made_again()
    ensures { (state made : SessionState) → IsGrid made.engine.grid
        → ((direction : Direction) → AreTextsFrom made.engine.grid 0 (clues_of made.clues direction))
        → replayed (record (with_grid state made.engine.grid) { clues = no_clues })
        (section_commands made (sections.Cells (parts.Clues Across)) ++ section_commands made (sections.Cells (parts.Clues Down)))
        ≡ Some (record (with_grid state made.engine.grid) { clues = made.clues }) }
{}

/// The bar commands of a record, executed on a blank grid, restore the bars: first those right of cells, then those
/// below. The grid must have no bar on its border.
pub fn bars_are_made_again()
    ensures right { (state made : SessionState) → IsGrid made.engine.grid → BarsAreOnEdges made.engine.grid
        → replayed (with_grid state (blank made.engine.grid.width made.engine.grid.height)) (section_commands made (sections.Cells (parts.Bars Right)))
        ≡ Some (with_grid state (barred_right made.engine.grid)) }
    ensures below { (state made : SessionState) → IsGrid made.engine.grid → BarsAreOnEdges made.engine.grid
        → replayed (with_grid state (barred_right made.engine.grid)) (section_commands made (sections.Cells (parts.Bars Below)))
        ≡ Some (with_grid state (barred made.engine.grid)) }
{}

/// The block commands of a record, executed on an empty grid without symmetry, restore exactly the blocks.
pub fn blocks_are_made_again()
    ensures { (state made : SessionState) → IsGrid made.engine.grid
        → replayed (with_grid state (record made.engine.grid { squares = replicate (made.engine.grid.width * made.engine.grid.height) (Open None); symmetry = kinds.None }))
        (section_commands made (sections.Cells parts.Blocks))
        ≡ Some (with_grid state (record made.engine.grid { squares = map bared made.engine.grid.squares; symmetry = kinds.None })) }
{}

/// The letter commands of a record, executed on a grid that has the blocks but no letters, restore the grid.
pub fn letters_are_made_again()
    ensures { (state made : SessionState) → IsGrid made.engine.grid
        → replayed (with_grid state (record made.engine.grid { squares = map bared made.engine.grid.squares })) (section_commands made (sections.Cells parts.Letters))
        ≡ Some (with_grid state made.engine.grid) }
{}

/// The commands of a record, executed in order, rebuild the session.
pub fn commands_make_sessions_again()
    ensures { CommandsMakeSessionsAgain }
{}

/// Each line of a record parses as its command, so the lines rebuild the session too.
pub fn lines_make_sessions_again()
    ensures read { LinesAreReadAgain }
    ensures made { LinesMakeSessionsAgain }
{}

/// A session over any engine that starts with the same words and accepts every line of a record has the same state
/// afterwards. The first line that it refuses, if any, is refused with `Memory`.
pub fn records_make_sessions_again()
    ensures made { AnsweredLinesMakeSessionsAgain }
    ensures memory { RecordsAreRefusedForMemoryOnly }
{}

/// A session started with an engine alone meets the premises of these laws, if nothing was done to its words and no bar
/// lies on the border of the grid. Every line keeps the premises.
pub fn sessions_keep_what_they_have()
    ensures begun { SessionsBegin }
    ensures kept { SessionsStay }
{}

/// A session opened with the puzzle of a `.puz` or text file meets the premises of these laws, if nothing was done to the
/// words of its dictionary. Nothing was done to those of a new dictionary and of one loaded from a word list.
pub fn sessions_open_with_files()
    ensures empty { IsFresh no_words }
    ensures listed { (bytes : List ℕ) → IsFresh (listed_in bytes) }
    ensures puz { SessionsOpen puzzle_at }
    ensures text { SessionsOpen all_of }
{}

/// The lines of a session's journal, executed in the state where the session started, are all accepted and leave the
/// state where it ended, whatever lines the session was given. Each of them ends with an LF.
pub fn journals_make_sessions_again()
    ensures made { JournalsMakeSessionsAgain }
    ensures whole { JournalsHaveWholeLines }
{}

/// A session over any engine that starts in the same state and accepts every line of a journal ends in the same state.
/// The first line that it refuses, if any, is refused with `Memory`.
pub fn answered_journals_make_sessions_again()
    ensures made { AnsweredJournalsMakeSessionsAgain }
    ensures memory { JournalsAreRefusedForMemoryOnly }
{}

/// Of the first bytes of a journal, the lines that count are its first lines: each command is there with all that it wrote, or not at
/// all, also a search. They leave the state after these commands. The same holds of the first bytes of the file of a journal, unless they
/// are only a part of its first line.
pub fn journals_are_cut_at_lines()
    ensures lines { JournalsAreCutAtLines }
    ensures files { JournalFilesAreCutAtLines }
{}

/// A run whose lines are answered with a journal writes the journal of these lines.
pub fn runs_are_journaled()
    ensures { RunsAreJournaled }
{}

/// A run whose writer failed wrote the journal of the lines up to the one whose answer was not finished. A run whose
/// journal failed wrote first bytes of the journal of the lines up to the one where it failed.
pub fn stopped_runs_are_journaled()
    ensures broken { BrokenRunsAreJournaled }
    ensures stopped { StoppedRunsAreJournaled }
{}

/// A journal that was empty before a run leads to the session after the run. If the journal failed, its lines that count are the first
/// lines of such a journal.
pub fn journaled_runs_are_made_again()
    ensures lines { LinesArePlain }
    ensures made { JournaledRunsAreMadeAgain }
    ensures begun { BegunJournalsAreMadeAgain }
{}

/// However a run ends, a journal that was empty before it holds the journal of the lines that were answered, or first
/// bytes of it if the journal failed, and its lines that count lead to the state after the commands that they have.
pub fn runs_leave_journals<R: Source, W: Sink>()
    ensures { RunsLeaveJournals R.transcript R.is_at_end R.failures W.transcript W.failures }
{}

/// Lines that can all be executed leave the same state when `resume` of `xw_session` replays them, with no line refused or reported,
/// unless it stops for a failed allocation.
pub fn lines_are_resumed()
    ensures { LinesAreResumed }
{}

/// A record that `resume` replays, in a session with the same words at the start, rebuilds the recorded session, or `resume` stops for a
/// failed allocation.
pub fn records_are_resumed()
    ensures { RecordsAreResumed }
{
    lines_make_sessions_again();
}

/// A journal that `resume` replays, in the state where its session started, leaves the state where that session ended, or `resume` stops
/// for a failed allocation.
pub fn journals_are_resumed()
    ensures { JournalsAreResumed }
{
    journals_make_sessions_again();
}
