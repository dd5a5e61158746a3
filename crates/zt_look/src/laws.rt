//! A law of the lines: without names, they are the lines of `zt_text`. The law is the contract of a function that does
//! nothing.

ghost use Rattle.std.specs.Prelude.{◌≡◌, ℕ, Option, false};
ghost use Rattle.zt_bits.specs.declared.kinds.Kind.{Kind};
ghost use Rattle.zt_rows.specs.declared.calls.Call.{Call};
ghost use Rattle.zt_rows.specs.declared.calls.Reply.{Reply};
ghost use Rattle.zt_rows.specs.declared.keys.RowKey.{RowKey};
ghost use Rattle.zt_rows.specs.declared.rows.Row.{Row};
ghost use Rattle.zt_text.specs.Answers.{row_line, shown_reply};
ghost use Rattle.zt_text.specs.Calls.{shown_call};
ghost use Rattle.zt_look.specs.NamedTexts.{line_of_row, call_text, reply_text};

/// If names are not asked for, a row, a call and a reply are shown as `zt_text` shows them.
#[tactic(auto, using(crate::proofs::MaskLaws::row_by_masks, crate::proofs::MaskLaws::call_by_masks, crate::proofs::MaskLaws::reply_by_masks))]
pub fn masks_are_shown_as_ever()
    ensures rows { (kind : Option Kind) (key : RowKey) (row : Row) → line_of_row (record { names = false; kind = kind }) (key, row) ≡ row_line (key, row) }
    ensures calls { (kind : Option Kind) (process : ℕ) (call : Call) → call_text (record { names = false; kind = kind }) process call ≡ shown_call process call }
    ensures replies { (kind : Option Kind) (reply : Reply) → reply_text (record { names = false; kind = kind }) reply ≡ shown_reply reply }
{}
