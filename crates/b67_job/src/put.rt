//! How a whole text is printed.

ghost use Rattle.std.specs.Prelude.{◌<◌, length, take, OnOk, IfErr};
ghost use Rattle.b67_io.specs.Told.{Took};
ghost use Rattle.b67_io.specs.Causes.{HasCause};

use b67_io::Sink;

/// Prints a text. At Err(k) the first k of its bytes are taken, fewer than all.
pub fn put_text<K: Sink>(sink: &mut K, text: &[u8]) -> Result<(), usize>
    ensures whole { OnOk result (Took K.taken sink.old sink.new text.now) }
    ensures part { IfErr result (λ k. (k < length text.now) × Took K.taken sink.old sink.new (take k text.now)) }
    ensures cause { HasCause K.faults sink.old sink.new result }
{
    let mut done = 0;
    'put: while done < text.len() {
        match sink.put(&text[done..]) {
            Ok(k) => done += k,
            Err(_) => return Err(done),
        }
    }
    Ok(())
}
