//! Playing a trace.
ghost use Rattle.std.specs.Prelude.{◌≡◌, ◌≢◌, ◌+◌, ◌-◌, ◌<◌, ◌≤◌, ◌^◌, ◌⊎◌, length, false, Some, Err, IsTrue, option_map, if◌then◌else◌};
ghost use Rattle.trace.specs.LineReader.{ReadsLine, unflushed_as_unread};
ghost use Rattle.trace.specs.LinesProcessed.{reads_failed, writes_failed};
ghost use Rattle.trace.specs.Streams.{Stays, given_by, taken_by};
ghost use Rattle.machine.specs.Headline.{Holds, Follows};
ghost use Rattle.trace.specs.declared.player.style.Style.TheVariants as styles;
ghost use Rattle.trace.specs.New.{StartsWithSpace};
ghost use Rattle.trace.specs.Playing.{session, OrHeld, IsSentUpTo, Played, PlayedFirst, PlayedUpTo};

use crate::player::Player;
use crate::player::line::play_line;
use crate::player::style::Style;
use crate::{LineReader, PlayFault, Sink, Source};

/// Returns whether an event is left, or the number of events isn't limited.
fn is_any_left(left: Option<u32>) -> bool
    ensures some { IsTrue result → left ≢ Some 0 }
    ensures none { result ≡ false → left ≡ Some 0 }
{
    !matches!(left, Some(0))
}

/// Returns how many events are left after a line, if their number is limited.
fn left_after(left: Option<u32>, is_event: bool) -> Option<u32>
    requires { left ≢ Some 0 }
    ensures { result ≡ option_map (λ n. n - (if is_event then 1 else 0)) left }
{
    match left {
        Some(n) if is_event => Some(n - 1),
        _ => left,
    }
}

/// Hands out the next line. If the style writes anything, it flushes the sink before it asks the source for more. A
/// failed flush ends the call as a failed read does.
#[inline(always)]
fn next_line<S: Source, K: Sink>(
    reader: &mut LineReader,
    source: &mut S,
    sink: &mut K,
    style: Style,
) -> Result<bool, PlayFault>
    requires { reader.old.text.number + length reader.old.kept ≤ length (S.given source.old) }
    ensures asked { (source.new ≡ source.old) ⊎ ((style ≡ styles.Nothing)
        ⊎ (K.sent sink.new ≡ length (K.taken sink.old))) }
    ensures hands { ReadsLine
        (given_by S.given S.ended source.old source.new) reader.old reader.new (unflushed_as_unread result) }
    ensures behind { reader.new.text.number + length reader.new.kept ≤ length (S.given source.new) }
    ensures counted { reader.new.text.number < 2 ^ 64 }
    ensures taken { K.taken sink.new ≡ K.taken sink.old }
    ensures sent { K.sent sink.old ≤ K.sent sink.new }
    ensures held { result ≡ Err PlayFault.Write → (style ≢ styles.Nothing)
        × (K.sent sink.new < length (K.taken sink.old)) }
    ensures writes { K.failures sink.new ≡ K.failures sink.old + writes_failed result }
    ensures reads { S.failures source.new ≡ S.failures source.old + reads_failed result }
    ensures input { reads_failed result ≡ 0 → Stays (S.input source.old) (S.input source.new) }
{
    match style {
        Style::Nothing => reader.next_line(source),
        Style::Replies | Style::Entries => reader.next_line_once_flushed(source, sink),
    }
}

/// Plays the lines of a source, up to the line of the nth event if there is an n. It is written into its callers,
/// which know the style, so that no line tests the style.
#[inline(always)]
fn play_lines<S: Source, K: Sink>(
    n: Option<u32>,
    source: &mut S,
    sink: &mut K,
    player: &mut Player,
    style: Style,
) -> Result<(), PlayFault>
    ensures played { OrHeld style (taken_by K.taken K.sent sink.old sink.new) result
        (PlayedUpTo n style (given_by S.given S.ended source.old source.new)
        (session player.old (K.taken sink.old)) (session player.new (K.taken sink.new))) }
    ensures sent { IsSentUpTo style (given_by S.given S.ended source.old source.new)
        (session player.old (K.taken sink.old)) (session player.new (K.taken sink.new)) (K.sent sink.new) }
    ensures none { n ≡ Some 0 → source.new ≡ source.old }
    ensures reads { S.failures source.new ≡ S.failures source.old + reads_failed result }
    ensures writes { K.failures sink.new ≡ K.failures sink.old + writes_failed result }
    ensures input { reads_failed result ≡ 0 → Stays (S.input source.old) (S.input source.new) }
{
    let mut reader = LineReader::new();
    let mut out = [0; 256];
    let mut left = n;
    while is_any_left(left) && next_line(&mut reader, source, sink, style)? {
        let is_event = play_line(reader.text(), style, player, &mut out, sink)?;
        left = left_after(left, is_event);
    }
    Ok(())
}

/// Plays the lines of a source, up to the line of the nth event; all lines, if n is None or there are fewer events.
/// It does the lines in order, and writes to a sink what the style asks for each command. Skipped lines are no
/// events. It looks at no line after that of the nth event, and reads nothing if n is 0.
///
/// After a fault all that was done and written before it stays so. After a failed write the last command is done, and
/// a beginning of its line is written. If the style writes anything, the sink is flushed before the source is asked
/// for more. The caller must flush the sink at the end. The heap with its history is left with all its promises, and
/// space suffices for what is done from a new player.
#[inline(always)]
pub fn play_up_to<S: Source, K: Sink>(
    n: Option<u32>,
    source: &mut S,
    sink: &mut K,
    player: &mut Player,
    style: Style,
) -> Result<(), PlayFault>
    ensures played { OrHeld style (taken_by K.taken K.sent sink.old sink.new) result
        (PlayedUpTo n style (given_by S.given S.ended source.old source.new)
        (session player.old (K.taken sink.old)) (session player.new (K.taken sink.new))) }
    ensures sent { IsSentUpTo style (given_by S.given S.ended source.old source.new)
        (session player.old (K.taken sink.old)) (session player.new (K.taken sink.new)) (K.sent sink.new) }
    ensures none { n ≡ Some 0 → source.new ≡ source.old }
    ensures reads { S.failures source.new ≡ S.failures source.old + reads_failed result }
    ensures writes { K.failures sink.new ≡ K.failures sink.old + writes_failed result }
    ensures input { reads_failed result ≡ 0 → Stays (S.input source.old) (S.input source.new) }
    ensures headline { Holds player.new.course × Follows player.old.course player.new.course }
    ensures space { StartsWithSpace player.old }
{
    player.recorded().promise();
    play_lines(n, source, sink, player, style)
}

/// Plays all lines of a source, as `play_up_to` does.
#[inline(always)]
pub fn play<S: Source, K: Sink>(
    source: &mut S,
    sink: &mut K,
    player: &mut Player,
    style: Style,
) -> Result<(), PlayFault>
    ensures played { OrHeld style (taken_by K.taken K.sent sink.old sink.new) result
        (Played style (given_by S.given S.ended source.old source.new)
        (session player.old (K.taken sink.old)) (session player.new (K.taken sink.new))) }
    ensures sent { IsSentUpTo style (given_by S.given S.ended source.old source.new)
        (session player.old (K.taken sink.old)) (session player.new (K.taken sink.new)) (K.sent sink.new) }
    ensures reads { S.failures source.new ≡ S.failures source.old + reads_failed result }
    ensures writes { K.failures sink.new ≡ K.failures sink.old + writes_failed result }
    ensures input { reads_failed result ≡ 0 → Stays (S.input source.old) (S.input source.new) }
    ensures headline { Holds player.new.course × Follows player.old.course player.new.course }
    ensures space { StartsWithSpace player.old }
{
    play_up_to(None, source, sink, player, style)
}

/// Plays the lines of a source as `play_up_to` does: up to the line of the nth event, or all if there are fewer.
pub fn play_first<S: Source, K: Sink>(
    n: u32,
    source: &mut S,
    sink: &mut K,
    player: &mut Player,
    style: Style,
) -> Result<(), PlayFault>
    ensures played { OrHeld style (taken_by K.taken K.sent sink.old sink.new) result
        (PlayedFirst n style (given_by S.given S.ended source.old source.new)
        (session player.old (K.taken sink.old)) (session player.new (K.taken sink.new))) }
    ensures sent { IsSentUpTo style (given_by S.given S.ended source.old source.new)
        (session player.old (K.taken sink.old)) (session player.new (K.taken sink.new)) (K.sent sink.new) }
    ensures none { n ≡ 0 → source.new ≡ source.old }
    ensures reads { S.failures source.new ≡ S.failures source.old + reads_failed result }
    ensures writes { K.failures sink.new ≡ K.failures sink.old + writes_failed result }
    ensures input { reads_failed result ≡ 0 → Stays (S.input source.old) (S.input source.new) }
    ensures headline { Holds player.new.course × Follows player.old.course player.new.course }
    ensures space { StartsWithSpace player.old }
{
    play_up_to(Some(n), source, sink, player, style)
}
