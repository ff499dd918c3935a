//! Words, numbers and lines.

use ras_io::{MemSink, Sink, SinkFault};
use ras_text::{Line, first_line, number, put_dec, put_hex, put_signed, put_word, words};
use std::alloc::{AllocError, Global};
use std::test::Fail;

#[test]
fn reads_numbers(rt: HostRuntime) {
    let rows: [(&[u8], Option<u64>); 19] = [
        (b"0", Some(0)),
        (b"0007", Some(7)),
        (b"18446744073709551615", Some(u64::MAX)),
        (b"18446744073709551616", None),
        (b"20000000000000000000", None),
        (b"99999999999999999999", None),
        (b"000000000000000000000000000000000000000042", Some(42)),
        (b"0x0", Some(0)),
        (b"0xFFff", Some(65535)),
        (b"0xffffffffffffffff", Some(u64::MAX)),
        (b"0x10000000000000000", None),
        (b"0x00000000000000000000000000000000000000000a", Some(10)),
        (b"", None),
        (b"0x", None),
        (b"0X1", None),
        (b"x1", None),
        (b"0xg", None),
        (b"+1", None),
        (b"1 ", None),
    ];
    for (word, value) in rows {
        assert!(rt; number(word) == value);
    }
}

fn joined(alloc: Global, line: &[u8]) -> Result<Vec<u8>, AllocError> {
    let mut all = Vec::new(alloc);
    for word in words(line) {
        all.extend_from_slice(word)?;
        all.push(b'|')?;
    }
    Ok(all)
}

#[test]
fn splits_lines_into_words(rt: HostRuntime) -> Result<(), Fail> {
    assert_eq!(rt;
        joined(rt.alloc(), b"\t at\t\t0x10  ")?.as_slice(),
        b"at|0x10|".as_slice()
    );
    assert_eq!(rt; joined(rt.alloc(), b" \t ")?.as_slice(), b"".as_slice());
    assert_eq!(rt;
        joined(rt.alloc(), b"a\rb #")?.as_slice(),
        b"a\rb|#|".as_slice()
    );
    Ok(())
}

fn listed(alloc: Global, text: &[u8]) -> Result<Vec<u8>, AllocError> {
    let mut all = Vec::new(alloc);
    let mut rest = text;
    while !rest.is_empty() {
        let (line, after) = first_line(rest);
        all.extend_from_slice(line)?;
        all.push(b'|')?;
        rest = after;
    }
    Ok(all)
}

#[test]
fn splits_texts_into_lines(rt: HostRuntime) -> Result<(), Fail> {
    assert_eq!(rt;
        listed(rt.alloc(), b"a\r\n\nb c\n")?.as_slice(),
        b"a||b c|".as_slice()
    );
    assert_eq!(rt;
        listed(rt.alloc(), b"\r\r\nlast\r")?.as_slice(),
        b"\r|last|".as_slice()
    );
    assert_eq!(rt; listed(rt.alloc(), b"")?.as_slice(), b"".as_slice());
    Ok(())
}

fn put_all<K: Sink>(sink: &mut K) -> Result<(), SinkFault> {
    let mut line = Line::new(sink);
    put_word(&mut line, b"move ");
    put_dec(&mut line, u64::MAX);
    put_word(&mut line, b" ");
    put_signed(&mut line, i64::MIN);
    put_word(&mut line, b" ");
    put_signed(&mut line, -9);
    line.end()?;
    put_hex(&mut line, 0);
    put_word(&mut line, b" ");
    put_hex(&mut line, 0x0123_4567_89ab_cdef);
    put_word(&mut line, b" ");
    put_hex(&mut line, u64::MAX);
    line.end()
}

#[test]
fn writes_lines(rt: HostRuntime) -> Result<(), Fail> {
    let mut sink = MemSink::new(rt.alloc(), 200, Vec::new(rt.alloc()))?;
    put_all(&mut sink)?;
    let text = b"move 18446744073709551615 -9223372036854775808 -9
0x0 0x123456789abcdef 0xffffffffffffffff
";
    assert_eq!(rt; sink.bytes(), text.as_slice());
    Ok(())
}

#[test]
fn begins_again_after_a_fault(rt: HostRuntime) -> Result<(), Fail> {
    let mut sink = MemSink::new(rt.alloc(), 200, vec![in rt.alloc(); 1]?)?;
    let mut line = Line::new(&mut sink);
    put_word(&mut line, b"one");
    assert_eq!(rt; line.end(), Ok(()));
    put_word(&mut line, b"two");
    assert_eq!(rt; line.end(), Err(SinkFault));
    put_word(&mut line, b"three");
    assert_eq!(rt; line.end(), Ok(()));
    assert_eq!(rt; sink.bytes(), b"one\nthree\n".as_slice());
    Ok(())
}
