//! What the mover moved at the beginning of a step (own): a word from one address to another, or that it couldn't; that a
//! channel is done; and the interrupt that it pends.

ghost use Rattle.std.specs.Prelude.{◌≡◌, ◌≤◌, ◌+◌, ◌*◌, ◌++◌, length};
ghost use Rattle.arrayvec.specs.ArrayString.{array_string_len};
ghost use Rattle.tz_full.specs.MoveLines.{is_moved, is_failed, places_text, move_line, end_line, irq_line, move_lines, side_lines, moves_text};

use crate::text::Text;
use tz_model::Channel;
use tz_state::mover_bits::MOVER_IRQ_0;
use tz_state::{Move, Moves};
use tz_syntax::{push_decimal, push_hex_word};

/// Whether a word was moved.
fn is_moved(made: &Move) -> bool
    ensures { result ≡ is_moved made.now }
{
    made.after.count != made.before.count
}

/// Whether a word couldn't be moved.
fn is_failed(made: &Move) -> bool
    ensures { result ≡ is_failed made.now }
{
    made.before.count != 0 && !is_moved(made)
}

/// Where a channel moves from and to.
#[tactic(auto, unfolding(crate::specs::MoveLines::places_text))]
fn push_places(text: &mut Text, name: &str, channel: &Channel)
    requires { array_string_len text.old + 22 + length name.now ≤ 4096 }
    ensures bytes { text.new.bytes ≡ text.old.bytes ++ places_text name.now channel.now }
    ensures len { array_string_len text.new ≤ array_string_len text.old + 22 + length name.now }
{
    text.push_str(name);
    push_hex_word(text, channel.src);
    text.push_str(" to ");
    push_hex_word(text, channel.dst);
    text.push_str(" ");
}

/// The word that was moved, or that it couldn't be.
#[tactic(auto, unfolding(crate::specs::MoveLines::move_line))]
fn push_move_line(text: &mut Text, name: &str, made: &Move)
    requires { array_string_len text.old + 32 + length name.now ≤ 4096 }
    ensures bytes { text.new.bytes ≡ text.old.bytes ++ move_line name.now made.now }
    ensures len { array_string_len text.new ≤ array_string_len text.old + 32 + length name.now }
{
    if is_moved(made) {
        push_places(text, name, &made.before);
        push_hex_word(text, made.word);
        text.push_str("\n");
    } else if is_failed(made) {
        push_places(text, name, &made.before);
        text.push_str("ERROR\n");
    }
}

/// That a channel is done.
#[tactic(auto, unfolding(crate::specs::MoveLines::end_line))]
fn push_end_line(text: &mut Text, name: &str, made: &Move)
    requires { array_string_len text.old + 5 + length name.now ≤ 4096 }
    ensures bytes { text.new.bytes ≡ text.old.bytes ++ end_line name.now made.now }
    ensures len { array_string_len text.new ≤ array_string_len text.old + 5 + length name.now }
{
    if made.after.ctrl % 2 == 0 && !is_failed(made) {
        text.push_str(name);
        text.push_str("DONE\n");
    }
}

/// The interrupt that a channel pends.
#[tactic(auto, unfolding(crate::specs::MoveLines::irq_line))]
fn push_irq_line(text: &mut Text, name: &str, made: &Move)
    requires { array_string_len text.old + 21 + length name.now ≤ 4096 }
    ensures bytes { text.new.bytes ≡ text.old.bytes ++ irq_line name.now made.now }
    ensures len { array_string_len text.new ≤ array_string_len text.old + 21 + length name.now }
{
    if made.pends {
        text.push_str(name);
        text.push_str("pends irq ");
        push_decimal(text, made.before.ctrl / MOVER_IRQ_0 % 0x100);
        text.push_str("\n");
    }
}

/// The lines of a move.
#[tactic(auto, unfolding(crate::specs::MoveLines::move_lines))]
fn push_move_lines(text: &mut Text, name: &str, made: &Move)
    requires { array_string_len text.old + 58 + 3 * length name.now ≤ 4096 }
    ensures bytes { text.new.bytes ≡ text.old.bytes ++ move_lines name.now made.now }
    ensures len { array_string_len text.new ≤ array_string_len text.old + 58 + 3 * length name.now }
{
    push_move_line(text, name, made);
    push_end_line(text, name, made);
    push_irq_line(text, name, made);
}

/// The lines of the move of a channel, where it made one.
fn push_side_lines(text: &mut Text, name: &str, made: &Option<Move>)
    requires { array_string_len text.old + 58 + 3 * length name.now ≤ 4096 }
    ensures bytes { text.new.bytes ≡ text.old.bytes ++ side_lines name.now made.now }
    ensures len { array_string_len text.new ≤ array_string_len text.old + 58 + 3 * length name.now }
{
    if let Some(made) = made {
        push_move_lines(text, name, made);
    }
}

/// The lines of the moves of a step.
#[tactic(auto, unfolding(crate::specs::MoveLines::moves_text))]
pub fn push_moves(text: &mut Text, moves: &Moves)
    requires { array_string_len text.old + 240 ≤ 4096 }
    ensures bytes { text.new.bytes ≡ text.old.bytes ++ moves_text moves.now }
    ensures len { array_string_len text.new ≤ array_string_len text.old + 240 }
{
    push_side_lines(text, "    mover S ", &moves.secure);
    push_side_lines(text, "    mover NS ", &moves.nonsecure);
}
