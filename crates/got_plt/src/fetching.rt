// Fetches of closed entries, and call stubs.
ghost use Rattle.std.specs.Prelude.{◌≡◌, ◌<◌, ◌+◌, OnOk};
ghost use Rattle.rv_isa.specs.Assembly.{word_count};
ghost use Rattle.got_plt.specs.Fetches as spec;
ghost use Rattle.got_plt.specs.Fetches.{most_closed, with_fetch, with_stub, fetch_count, stub_count};

use crate::emitting::{
    Labels, emit_call, emit_entry, emit_fill, emit_keep, emit_link, emit_root, emit_round,
    make_labels, put_label,
};
use mn_outside::{Label, NoMemory};
use rgctx_words::{depth_of, slot_of};
use rv_isa::Asm;

/// The most closed entries of an image.
pub const MOST_CLOSED: u16 = 1_792;

// The label at which the loop is entered.
fn start_of(place: u16, labels: &Labels) -> Label
    ensures { result ≡ spec.label (spec.start_of place labels.now.first.number labels.now.second.number) }
{
    if depth_of(place) % 2 == 0 {
        return labels.second;
    }
    labels.first
}

/// Puts the code at the end that fetches closed entry `place`, counted from 0, of the image's node to x5: it
/// goes from the root of node 1 by links to the entry's row, and where a row or the entry is missing the
/// service FILL makes it. 17 code words for every place, which take at most 774 turns where the entry is
/// there. It uses x5, x6 and, for the fill, x10, x11 and x17, and leaves all other registers. After want of
/// memory `asm` is not to be used again. This project's own.
pub fn fetch(asm: &mut Asm, place: u16) -> Result<(), NoMemory>
    requires { place < most_closed }
    ensures items { OnOk result (asm.new ≡ with_fetch asm.old place) }
    ensures count { OnOk result (word_count asm.new.items ≡ word_count asm.old.items + fetch_count) }
{
    let labels = make_labels(asm)?;
    emit_root(asm, (depth_of(place) + 2) / 2, start_of(place, &labels))?;
    put_label(asm, labels.first);
    emit_link(asm, labels.missing)?;
    put_label(asm, labels.second);
    emit_link(asm, labels.missing)?;
    emit_round(asm, labels.first)?;
    emit_entry(asm, slot_of(place), labels.done)?;
    put_label(asm, labels.missing);
    emit_fill(asm, place)?;
    put_label(asm, labels.done);
    Ok(())
}

/// Puts a call stub at the end: it fetches closed entry `place`, the value of a method, and calls it by the
/// service CALL, with the result's address in x11 and that of the argument list in x12, as CALL takes them.
/// 22 code words for every place. Besides what a fetch uses it uses x7. After want of memory `asm` is not to
/// be used again. This project's own.
pub fn stub(asm: &mut Asm, place: u16) -> Result<(), NoMemory>
    requires { place < most_closed }
    ensures items { OnOk result (asm.new ≡ with_stub asm.old place) }
    ensures count { OnOk result (word_count asm.new.items ≡ word_count asm.old.items + stub_count) }
{
    emit_keep(asm)?;
    fetch(asm, place)?;
    emit_call(asm)?;
    Ok(())
}
