//! Laws of reading and printing lines. Each law is the contract of a function that does nothing.
ghost use Rattle.std.specs.Prelude.{◌≡◌, ℕ, ℤ, true, ◌^◌, ◌<◌, ◌≤◌, List, [], length, map, Some, None, Ok, Err};
ghost use Rattle.std.specs.Fmt.{decimal, signed_decimal};
ghost use Rattle.std.specs.List.{All};
ghost use Rattle.zt_rows.specs.declared.calls.Call.{Call};
ghost use Rattle.zt_rows.specs.declared.keys.RowKey.{RowKey};
ghost use Rattle.zt_rows.specs.declared.rows.Row.{Row};
ghost use Rattle.zt_rows.specs.Room.{suits};
ghost use Rattle.zt_rows.specs.declared.calls.Command.TheVariants as commands;
ghost use Rattle.zt_text.specs.declared.read_lines.Line.TheVariants as line;
ghost use Rattle.zt_text.specs.Numbers.{decimal_of, mask_of, code_of};
ghost use Rattle.zt_text.specs.Bytes.{bytes_of, packet_bytes_of};
ghost use Rattle.zt_text.specs.Lists.{handles_of};
ghost use Rattle.zt_text.specs.ReadLines.{read_as};
ghost use Rattle.zt_rows.specs.declared.refusals.Refusal.{Refusal};
ghost use Rattle.zt_text.specs.Lines.{lines_of};
ghost use Rattle.zt_text.specs.Session.{session_of};
ghost use Rattle.zt_text.specs.SessionCalls.{LinesLeft, calls_left, in_front_of, next_call, row_lines, tree_of};
ghost use Rattle.zt_rows.specs.CallsInARow.{in_a_row};
ghost use Rattle.zt_text.specs.SavedTexts.{IsSaved, IsSavedCall, IsHeadWithin, IsPlaceWithin, saved_of, saved_text};
ghost use Rattle.zt_rows.specs.declared.saved.Saved.{Saved};
ghost use Rattle.zt_text.specs.Notes.{Noted, notes_of};
ghost use Rattle.zt_text.specs.NotedTexts.{noted_saved_text, noted_session_text, IsNoted, IsSameNoted};
ghost use Rattle.zt_text.specs.Columns.{ColumnsTellFirstFaults};
ghost use Rattle.zt_text.specs.Spellings.{IsSpelledAsShown, CallsAreSpelledAsShown, LinesHaveTheWordsOfWhatTheyAsk, LinesAskDifferentThings, SavedTreesAreSpelledAsShown, SessionsAreSpelledAsShown, WordsAskWhatTheySay};
ghost use Rattle.zt_text.specs.Rows.{IsKeyWithin, IsRowWithin};
ghost use Rattle.zt_text.specs.Answers.{row_line};
ghost use Rattle.zt_text.specs.ShownNumbers.{shown_mask, shown_bytes, shown_list};
ghost use Rattle.zt_text.specs.Calls.{IsByte, IsHandle, IsCode, IsWithin, IsCalled, shown_call, session_text};

use crate::within::{
    bytes_are_within, code_is_within, handle_is_within, handles_are_within,
    handles_held_are_within, held_is_within, key_is_within, life_is_within, mask_is_within,
    packet_is_within,
};
use zt_rows::{Call, Cursor, Koid, Row, RowKey, Saved, SavedBranch, SavedCall};

/// Reading the calls of a session text one by one gives what reading the text gives: its calls in order, or its first fault.
#[tactic(auto, using(crate::proofs::SessionCallLemmas::row_session, crate::proofs::SessionCallLemmas::row_saved, crate::proofs::SessionCallLemmas::row_more_left, crate::proofs::SessionCallLemmas::rest_shorter, crate::proofs::SessionCallLemmas::row_ended, crate::proofs::SessionCallLemmas::row_fault))]
pub fn calls_one_by_one_are_those_of_the_text()
    ensures session { (text : List ℕ) (left : LinesLeft) → row_lines (lines_of text) ≡ Ok left
        → session_of text ≡ calls_left left }
    ensures saved { (text : List ℕ) (left : LinesLeft) → row_lines (lines_of text) ≡ Ok left
        → saved_of text ≡ tree_of (calls_left left) }
    ensures next { (left behind : LinesLeft) (made : ℕ × Call) → next_call left ≡ Ok (Some made, behind)
        → calls_left left ≡ in_front_of made (calls_left behind) }
    ensures shorter { (left behind : LinesLeft) (made : ℕ × Call) → next_call left ≡ Ok (Some made, behind)
        → length behind.lines < length left.lines }
    ensures end { (left behind : LinesLeft) → next_call left ≡ Ok (None, behind) → calls_left left ≡ Ok [] }
    ensures fault { (left : LinesLeft) (fault : ℕ × Refusal) → next_call left ≡ Err fault → calls_left left ≡ Err fault }
{}

/// A number that is printed in decimal reads as that number. An exit code that is printed with its sign reads as that code.
#[tactic(auto, using(crate::proofs::ShownFields::decimal_read, crate::proofs::ShownFields::code_read))]
pub fn numbers_read_back()
    ensures decimals { (most n : ℕ) → n ≤ most → most < 2 ^ 64 → decimal_of most (decimal n) ≡ Some n }
    ensures codes { (code : ℤ) → IsCode code → code_of (signed_decimal code) ≡ Some code }
{}

/// A mask that is printed reads as that mask.
#[tactic(auto, using(crate::proofs::ShownFields::mask_read))]
pub fn masks_read_back()
    ensures { (bits : ℕ) → bits < 2 ^ 32 → mask_of (shown_mask bits) ≡ Some bits }
{}

/// Bytes that are printed read as those bytes, in a message and in a packet.
#[tactic(auto, using(crate::proofs::ShownFields::bytes_read, crate::proofs::ShownFields::packet_bytes_read))]
pub fn bytes_read_back()
    ensures message { (bytes : List ℕ) → All IsByte bytes → length bytes ≤ 65536
        → bytes_of (shown_bytes bytes) ≡ Some bytes }
    ensures packet { (bytes : List ℕ) → All IsByte bytes → length bytes ≡ 32
        → packet_bytes_of (shown_bytes bytes) ≡ Some bytes }
{}

/// A list of handles that is printed reads as that list.
#[tactic(auto, using(crate::proofs::ShownWords::handles_read))]
pub fn lists_read_back()
    ensures { (handles : List ℕ) → All IsHandle handles → length handles ≤ 64
        → handles_of (shown_list decimal handles) ≡ Some handles }
{}

/// A number has one spelling: decimal digits without leading zeros. An exit code has one spelling too, without `+` or `-0`.
pub fn numbers_are_spelled_as_shown()
    ensures decimals { (most : ℕ) → most < 2 ^ 64 → IsSpelledAsShown (decimal_of most) decimal }
    ensures codes { IsSpelledAsShown code_of signed_decimal }
{}

/// A mask has one spelling: all eight digits, and no capitals.
pub fn masks_are_spelled_as_shown()
    ensures { IsSpelledAsShown mask_of shown_mask }
{}

/// Bytes have one spelling, in a message and in a packet: two digits for each, no capitals, and `-` for none.
pub fn bytes_are_spelled_as_shown()
    ensures message { IsSpelledAsShown bytes_of shown_bytes }
    ensures packet { IsSpelledAsShown packet_bytes_of shown_bytes }
{}

/// A list of handles has one spelling, which is `-` for none.
pub fn lists_are_spelled_as_shown()
    ensures { IsSpelledAsShown handles_of (shown_list decimal) }
{}

/// The numbers of every process and every call are in the ranges that the laws on its line ask for.
pub fn every_call_is_within(process: Koid, call: &Call)
    ensures process { process < 2 ^ 64 }
    ensures call { IsWithin call.now }
{
    key_is_within(process.0);
    match *call {
        Call::EventCreate | Call::EventPairCreate | Call::ChannelCreate | Call::PortCreate => {}
        Call::HandleClose { handle }
        | Call::TaskKill { handle }
        | Call::PortWait { port: handle }
        | Call::JobCreate { job: handle } => handle_is_within(handle),
        Call::HandleDuplicate { handle, rights } | Call::HandleReplace { handle, rights } => {
            handle_is_within(handle);
            mask_is_within(rights);
        }
        Call::ObjectSignal { handle, clear, set } | Call::ObjectSignalPeer { handle, clear, set } =>
            {
                handle_is_within(handle);
                mask_is_within(clear.0);
                mask_is_within(set.0);
            }
        Call::ChannelWrite { handle, ref parcel } => {
            handle_is_within(handle);
            parcel.limits();
            bytes_are_within(parcel.bytes().as_slice());
            handles_are_within(parcel.handles().as_slice());
        }
        Call::ChannelRead {
            handle,
            bytes,
            handles,
            discard: _,
        } => {
            handle_is_within(handle);
            mask_is_within(bytes);
            mask_is_within(handles);
        }
        Call::ObjectWaitAsync {
            handle,
            port,
            key,
            signals,
            edge: _,
        } => {
            handle_is_within(handle);
            handle_is_within(port);
            key_is_within(key);
            mask_is_within(signals.0);
        }
        Call::PortQueue {
            port,
            key,
            ref bytes,
        } => {
            handle_is_within(port);
            key_is_within(key);
            bytes_are_within(bytes);
        }
        Call::PortCancel { port, source, key } => {
            handle_is_within(port);
            handle_is_within(source);
            key_is_within(key);
        }
        Call::Spawn {
            job,
            argument: handle,
        }
        | Call::JobSetCritical {
            job,
            process: handle,
        } => {
            handle_is_within(job);
            handle_is_within(handle);
        }
        Call::ProcessExit { code } => code_is_within(code),
    }
}

/// The printed line of a call reads as that call.
#[tactic(auto, using(crate::proofs::ShownCalls::call_line_read))]
pub fn calls_read_back()
    ensures { (process : ℕ) (call : Call) → process < 2 ^ 64 → IsWithin call
        → read_as (shown_call process call) ≡ Ok (Some (line.Command (commands.Call process call))) }
{}

/// A call has one line: each line that reads as a call is the line that is printed for it.
pub fn calls_are_spelled_as_shown()
    ensures { CallsAreSpelledAsShown }
{}

/// Every other line that asks something has one spelling too: the words of what it asks, with single spaces between.
pub fn lines_have_the_words_of_what_they_ask()
    ensures { LinesHaveTheWordsOfWhatTheyAsk }
{}

/// The words of a call, a command or a question to the pinned copy, with single spaces between, ask for it. So each of them has
/// exactly one line.
pub fn lines_read_back()
    ensures { WordsAskWhatTheySay }
{}

/// No two lines ask for the same thing.
pub fn lines_ask_different_things()
    ensures { LinesAskDifferentThings }
{}

/// No two calls have the same line.
#[tactic(auto, using(crate::proofs::ShownCalls::call_lines_differ))]
pub fn calls_have_lines_of_their_own()
    ensures { (process other : ℕ) (call made : Call) → process < 2 ^ 64 → other < 2 ^ 64 → IsWithin call → IsWithin made
        → shown_call process call ≡ shown_call other made → (process ≡ other) × (call ≡ made) }
{}

/// The session text of calls reads as those calls.
#[tactic(auto, using(crate::proofs::SessionTexts::session_read))]
pub fn sessions_read_back()
    ensures { (calls : List (ℕ × Call)) → All IsCalled calls → session_of (session_text calls) ≡ Ok calls }
{}

/// The session text of a saved tree reads as that tree, with all its moments, branches and cursors.
#[tactic(auto, using(crate::proofs::SavedTrees::saved_read))]
pub fn saved_trees_read_back()
    ensures { (saved : Saved) → IsSaved saved → saved_of (saved_text saved) ≡ Ok saved }
{}

/// The session text of a saved tree with notes reads as that tree. Its notes are the same notes again, of no more moments than the
/// tree has, and its names the same names.
#[tactic(auto, using(crate::proofs::NotedTrees::noted_read, crate::proofs::NotedTrees::noted_again))]
pub fn noted_trees_read_back()
    ensures tree { (noted : Noted) (saved : Saved) → IsNoted noted → IsSaved saved
        → saved_of (noted_saved_text noted saved) ≡ Ok saved }
    ensures notes { (noted : Noted) (saved : Saved) → IsNoted noted → IsSaved saved → length noted.notes ≤ length saved.moments
        → IsSameNoted (notes_of (noted_saved_text noted saved)) noted }
{}

/// The session text of calls with notes reads as those calls.
#[tactic(auto, using(crate::proofs::NotedTrees::noted_session_read))]
pub fn noted_sessions_read_back()
    ensures { (noted : Noted) (calls : List (ℕ × (ℕ × Call))) → IsNoted noted → All (λ made. IsCalled made.1) calls
        → session_of (noted_session_text noted calls) ≡ Ok (map (λ made. made.1) calls) }
{}

/// A text that reads as a tree has one note for each of its moments, which is empty where no comment is before the moment's line.
#[tactic(auto, using(crate::proofs::NotedCounts::moments_counted))]
pub fn each_moment_has_a_note()
    ensures { (text : List ℕ) (saved : Saved) → saved_of text ≡ Ok saved → length (notes_of text).notes ≡ length saved.moments }
{}

/// The notes of every text are those that the laws on texts with notes ask for.
#[tactic(auto, using(crate::proofs::NotedTrees::notes_kept))]
pub fn notes_of_texts_are_lines()
    ensures { (text : List ℕ) → IsNoted (notes_of text) }
{}

/// The numbers of every saved tree are in the ranges that the law on its text asks for.
pub fn every_saved_is_within(saved: &Saved)
    ensures moments { All IsSavedCall saved.now.moments }
    ensures heads { All IsHeadWithin saved.now.branches }
    ensures places { All IsPlaceWithin saved.now.cursors }
{
    moments_are_within(saved.moments.as_slice());
    heads_are_within(saved.branches.as_slice());
    places_are_within(saved.cursors.as_slice());
}

/// The numbers of each moment are in the ranges of their types.
fn moments_are_within(moments: &[SavedCall])
    ensures { All IsSavedCall moments.now }
{
    for made in moments {
        moment_is_within(made);
    }
}

/// The numbers of a moment are in the ranges of their types.
fn moment_is_within(made: &SavedCall)
    ensures { IsSavedCall made.now }
{
    mask_is_within(made.parent.0);
    every_call_is_within(made.process, &made.call);
}

/// The head of each branch is in the range of its type.
fn heads_are_within(branches: &[SavedBranch])
    ensures { All IsHeadWithin branches.now }
{
    for branch in branches {
        head_is_within(branch);
    }
}

/// The head of a branch is in the range of its type.
fn head_is_within(branch: &SavedBranch)
    ensures { IsHeadWithin branch.now }
{
    mask_is_within(branch.head.0);
}

/// The moment of each cursor is in the range of its type.
fn places_are_within(cursors: &[Cursor])
    ensures { All IsPlaceWithin cursors.now }
{
    for cursor in cursors {
        place_is_within(cursor);
    }
}

/// The moment of a cursor is in the range of its type.
fn place_is_within(cursor: &Cursor)
    ensures { IsPlaceWithin cursor.now }
{
    if let Cursor::At(moment) = cursor {
        mask_is_within(moment.0);
    }
}

/// A session text of version 1 reads as its calls, each made at the moment of the one before it.
#[tactic(auto, using(crate::proofs::SavedTrees::first_version))]
pub fn calls_read_as_a_row()
    ensures { (text : List ℕ) (calls : List (ℕ × Call)) → session_of text ≡ Ok calls → saved_of text ≡ Ok (in_a_row calls) }
{}

/// A session text that reads as calls is the text that is printed for them. Only skipped lines and the last line feed can differ.
pub fn sessions_are_spelled_as_shown()
    ensures { SessionsAreSpelledAsShown }
{}

/// A session text of version 2 that reads as a tree is the text that is printed for it. Only skipped lines and the last line feed
/// can differ.
pub fn saved_trees_are_spelled_as_shown()
    ensures { SavedTreesAreSpelledAsShown }
{}

/// The column of a parse error is that of the first wrong field: no line with the same fields up to it asks for anything. If a
/// longer line with all these fields asks for something, the column is the one after the line.
pub fn columns_tell_first_faults()
    ensures { ColumnsTellFirstFaults }
{}

/// The numbers of every key and every row are in the ranges that the law on their lines asks for.
pub fn every_row_is_within(key: RowKey, row: &Row)
    ensures key { IsKeyWithin key }
    ensures row { IsRowWithin row.now }
{
    every_key_is_within(key);
    match row {
        Row::Counters(counters) => {
            key_is_within(counters.next_koid.0);
            key_is_within(counters.next_wait);
        }
        Row::Object(object) => {
            mask_is_within(object.signals.0);
            key_is_within(object.link.0);
            life_is_within(object.life);
            key_is_within(object.next);
            key_is_within(object.critical.0);
        }
        Row::Entry(held) => held_is_within(*held),
        Row::Msg(message) => {
            bytes_are_within(message.bytes().as_slice());
            handles_held_are_within(message.handles().as_slice());
        }
        Row::Packet(packet) => packet_is_within(packet),
        Row::Wait(wait) => {
            key_is_within(wait.process.0);
            handle_is_within(wait.handle);
            key_is_within(wait.port.0);
            key_is_within(wait.key);
            mask_is_within(wait.signals.0);
        }
    }
}

/// The numbers of every key are in the ranges of their types.
fn every_key_is_within(key: RowKey)
    ensures { IsKeyWithin key }
{
    match key {
        RowKey::Counters => {}
        RowKey::Object(koid) => key_is_within(koid.0),
        RowKey::Entry(process, handle) => {
            key_is_within(process.0);
            handle_is_within(handle);
        }
        RowKey::Msg(endpoint, number) => {
            key_is_within(endpoint.0);
            key_is_within(number);
        }
        RowKey::Packet(port, number) => {
            key_is_within(port.0);
            key_is_within(number);
        }
        RowKey::Wait(number) => key_is_within(number),
    }
}

/// No two rows, each under a key of its variant, have the same line.
pub fn rows_have_lines_of_their_own()
    ensures { (key other : RowKey) (row shown : Row) → suits key row ≡ true → suits other shown ≡ true
        → IsKeyWithin key → IsKeyWithin other → IsRowWithin row → IsRowWithin shown
        → row_line (key, row) ≡ row_line (other, shown) → (key ≡ other) × (row ≡ shown) }
{}
