// What is said of a list: all equal, a case that differs, lines that are none, and what is longer than its table has it.
use super::*;

struct Complements;

impl Table for Complements {
    const NAMES: &'static [&'static str] = &["not", "two"];

    fn answer(name: &[u8], input: &[u8], answer: &mut Bytes) -> Option<()> {
        let (first, rest) = input.split_first()?;
        if name == b"not".as_slice() {
            return answer.try_push(!*first).ok();
        }
        let (second, _) = rest.split_first()?;
        answer.try_push(!*first).ok()?;
        answer.try_push(!*second).ok()
    }
}

fn said(rt: &HostRuntime, list: &[u8]) -> io::Result<Vec<u8>> {
    let mut output = Vec::new(rt.alloc());
    Complements::run(rt.alloc(), list, &mut output)?;
    Ok(output)
}

#[test]
fn counts_equal_cases(rt: HostRuntime) -> io::Result<()> {
    let output = said(&rt, b"two 00ff ff00\nnot 0f f0\ntwo 0102 fefd\n")?;
    assert_eq!(rt;
        output.as_slice(),
        b"not 1 equal\ntwo 2 equal\n3 cases, all equal\n".as_slice()
    );
    Ok(())
}

#[test]
fn tells_a_case_that_differs(rt: HostRuntime) -> io::Result<()> {
    let output = said(&rt, b"not 0f f0\ntwo 0102 fefc\nnot 00 00\n")?;
    assert_eq!(rt;
        output.as_slice(),
        b"line 2 differs: two 0102 fefc\n".as_slice()
    );
    let output = said(&rt, b"not 0f -\n")?;
    assert_eq!(rt; output.as_slice(), b"line 1 differs: not 0f -\n".as_slice());
    Ok(())
}

#[test]
fn tells_a_line_that_is_no_case(rt: HostRuntime) -> io::Result<()> {
    for line in [
        b"not 0f".as_slice(),
        b"nor 0f f0",
        b"not 0F f0",
        b"not 0f f",
        b"two 01 fe",
        b"not - ff",
        b"not  ff",
        b"",
    ] {
        let mut list = Vec::new(rt.alloc());
        list.extend_from_slice(line)?;
        list.push(b'\n')?;
        let output = said(&rt, &list)?;
        assert!(rt; output.starts_with(b"line 1 cannot be read: "));
    }
    let output = said(&rt, b"not 0f f0\nnot 0f f0")?;
    assert_eq!(rt;
        output.as_slice(),
        b"line 2 cannot be read: not 0f f0\n".as_slice()
    );
    Ok(())
}

// The bytes as they are: `fiv` has five zeros, and `two` the two bytes turned round as its second answer.
struct Narrow;

impl Table for Narrow {
    const NAMES: &'static [&'static str] = &["one", "two", "fiv"];

    const LONGEST: usize = 30;

    const FIELD: usize = 4;

    fn answer(name: &[u8], input: &[u8], answer: &mut Bytes) -> Option<()> {
        if name == b"fiv".as_slice() {
            return answer.try_extend_from_slice(&[0; 5]).ok();
        }
        answer.try_extend_from_slice(input).ok()
    }

    fn second(name: &[u8], input: &[u8], answer: &mut Bytes) -> Option<()> {
        if name != b"two".as_slice() {
            return Some(());
        }
        let (first, rest) = input.split_first()?;
        let (last, _) = rest.split_first()?;
        answer.clear();
        answer.try_extend_from_slice(&[*last, *first]).ok()
    }
}

fn said_narrowly(rt: &HostRuntime, list: &[u8]) -> io::Result<Vec<u8>> {
    let mut output = Vec::new(rt.alloc());
    Narrow::run(rt.alloc(), list, &mut output)?;
    Ok(output)
}

#[test]
fn tells_a_list_that_is_too_long(rt: HostRuntime) -> io::Result<()> {
    let output = said_narrowly(&rt, b"one 01 01\none 01 01\none 01 01\n")?;
    assert_eq!(rt;
        output.as_slice(),
        b"one 3 equal\ntwo 0 equal\nfiv 0 equal\n3 cases, all equal\n".as_slice()
    );
    let output = said_narrowly(&rt, b"one 01 01\none 01 01\none 01 01\n\n")?;
    assert_eq!(rt;
        output.as_slice(),
        b"the list has more than 30 bytes\n".as_slice()
    );
    Ok(())
}

#[test]
fn tells_a_field_that_is_too_long(rt: HostRuntime) -> io::Result<()> {
    let output = said_narrowly(&rt, b"one 01020304 01020304\n")?;
    assert!(rt; output.starts_with(b"one 1 equal\n"));
    for line in [
        b"one 0102030405 01020304\n".as_slice(),
        b"one 01 0102030405\n",
        b"fiv 01 00000000\n",
    ] {
        let output = said_narrowly(&rt, line)?;
        assert!(rt; output.starts_with(b"line 1 cannot be read: "));
    }
    Ok(())
}

#[test]
fn compares_each_answer(rt: HostRuntime) -> io::Result<()> {
    let output = said_narrowly(&rt, b"two 0101 0101\n")?;
    assert!(rt; output.starts_with(b"one 0 equal\ntwo 1 equal\n"));
    for line in [
        b"two 0102 0102\n".as_slice(),
        b"two 0102 0201\n",
        b"two 0102 01020201\n",
        b"two 01 02\n",
    ] {
        let output = said_narrowly(&rt, line)?;
        assert!(rt; output.starts_with(b"line 1 differs: "));
    }
    let output = said_narrowly(&rt, b"two 01 01\n")?;
    assert!(rt; output.starts_with(b"line 1 cannot be read: "));
    Ok(())
}

// The bytes as they are, of lists and fields that are not limited.
struct Same;

impl Table for Same {
    const NAMES: &'static [&'static str] = &["sam"];

    fn answer(_name: &[u8], input: &[u8], answer: &mut Bytes) -> Option<()> {
        answer.try_extend_from_slice(input).ok()
    }
}

#[test]
fn takes_a_field_of_any_length(rt: HostRuntime) -> io::Result<()> {
    let digits = vec![in rt.alloc(); b'0'; 8192]?;
    let mut list = Vec::new(rt.alloc());
    list.extend_from_slice(b"sam ")?;
    list.extend_from_slice(&digits)?;
    list.push(b' ')?;
    list.extend_from_slice(&digits)?;
    list.push(b'\n')?;
    let mut output = Vec::new(rt.alloc());
    Same::run(rt.alloc(), list.as_slice(), &mut output)?;
    assert_eq!(rt;
        output.as_slice(),
        b"sam 1 equal\n1 cases, all equal\n".as_slice()
    );
    Ok(())
}

#[test]
fn takes_a_list_of_131072_bytes(rt: HostRuntime) -> io::Result<()> {
    let digits = vec![in rt.alloc(); b'0'; 131_064]?;
    let mut list = Vec::new(rt.alloc());
    list.extend_from_slice(b"not ")?;
    list.extend_from_slice(&digits)?;
    list.extend_from_slice(b" ff\n")?;
    let output = said(&rt, &list)?;
    assert_eq!(rt;
        output.as_slice(),
        b"not 1 equal\ntwo 0 equal\n1 cases, all equal\n".as_slice()
    );
    list.push(b'\n')?;
    let output = said(&rt, &list)?;
    assert_eq!(rt;
        output.as_slice(),
        b"the list has more than 131072 bytes\n".as_slice()
    );
    Ok(())
}
