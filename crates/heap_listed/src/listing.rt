// What is printed at the end: the record, the lists of a sound heap, and each lent word that is not zero.
ghost use Rattle.texts.specs.Output.{Puts, Ready, StillReady};
ghost use Rattle.heap_listed.specs.Listing.{record_text, word_text};
ghost use Rattle.heap_runs.specs.Run.{Fits};

use heap_runs::Lent;
use heap_shown::put_nodes;
use heap_state::Heap;
use std::io;
use texts::Output;

// The line of the record's numbers, without its heads.
fn put_record(heap: Heap, out: &mut Output)
    ensures { Puts (record_text heap) out.old out.new }
{
    out.put_with(b"record order ", heap.order);
    out.put_with(b" count ", heap.count);
    out.put_with(b" user ", heap.user);
    out.put_with(b" allocated ", heap.allocated);
    out.put_with(b" total ", heap.total);
    out.put(b"\n");
}

// The line of the heads, with room made for each.
fn put_heads(rt: &impl Print, heap: Heap, out: &mut Output) -> io::Result<()>
    requires { Ready out.old }
    ensures { StillReady out.old out.new }
{
    out.room(rt)?;
    out.put(b"heads");
    for head in heap.heads {
        out.room(rt)?;
        out.put_with(b" ", head);
    }
    out.room(rt)?;
    out.put(b"\n");
    Ok(())
}

// The line of a class's list; an empty list has none.
fn put_list(
    rt: &impl Print,
    class: u64,
    head: u64,
    arena: &[u64],
    out: &mut Output,
) -> io::Result<()>
    requires { Ready out.old }
    ensures { StillReady out.old out.new }
{
    if head == 0 {
        return Ok(());
    }
    out.room(rt)?;
    out.put_with(b"list ", class);
    put_nodes(rt, head, arena.len(), arena, out)
}

// The lines of the lists.
fn put_lists(rt: &impl Print, heap: Heap, arena: &[u64], out: &mut Output) -> io::Result<()>
    requires { Ready out.old }
    ensures { StillReady out.old out.new }
{
    for (class, head) in heap.heads.iter().enumerate() {
        put_list(rt, class as u64, *head, arena, out)?;
    }
    Ok(())
}

fn put_free(
    rt: &impl Print,
    heap: Heap,
    arena: &[u64],
    ledger: &[u64],
    out: &mut Output,
) -> io::Result<()>
    requires { Ready out.old }
    ensures { StillReady out.old out.new }
{
    if !heap_sound::sound(heap, arena, ledger) {
        out.room(rt)?;
        out.put(b"not sound\n");
        return Ok(());
    }
    put_lists(rt, heap, arena, out)
}

// The line of a word, after the name of what it is a word of.
fn put_word(name: &[u8], index: u64, word: u64, out: &mut Output)
    ensures { Puts (word_text name.now index word) out.old out.new }
{
    out.put_with(name, index);
    out.put(b" ");
    out.put_hex(word);
    out.put(b"\n");
}

// The lines of the words, with room made for each; a zero has none.
fn put_words(rt: &impl Print, name: &[u8], words: &[u64], out: &mut Output) -> io::Result<()>
    requires { Ready out.old }
    ensures { StillReady out.old out.new }
{
    for (i, word) in words.iter().enumerate() {
        if *word == 0 {
            continue;
        }
        out.room(rt)?;
        put_word(name, i as u64, *word, out);
    }
    Ok(())
}

// Prints all that is lent.
pub fn put_all(
    rt: &impl Print,
    lent: Lent,
    arena: &[u64],
    ledger: &[u64],
    out: &mut Output,
) -> io::Result<()>
    requires fits { Fits lent arena.now ledger.now }
    requires ready { Ready out.old }
    ensures { StillReady out.old out.new }
{
    let heap = lent.heap;
    let arena = &arena[..lent.words];
    let ledger = &ledger[..lent.records];
    out.room(rt)?;
    put_record(heap, out);
    put_heads(rt, heap, out)?;
    put_free(rt, heap, arena, ledger, out)?;
    put_words(rt, b"ledger ", ledger, out)?;
    put_words(rt, b"arena ", arena, out)
}
