// Lines that are no commands, and what is said of them.
use script::{LineFault, read_line};
use std::alloc::{AllocError, Global};
use std::process::Abort;
use std::test::Fail;

fn told(heap: Global, fault: LineFault) -> Result<String, AllocError> {
    fault.to_string(heap)
}

// Of this line that is said.
fn says(rt: &impl Abort, heap: Global, line: &str, text: &str) -> Result<(), Fail> {
    let Err(fault) = read_line(heap, line) else {
        return Err(Fail::new("a command"));
    };
    let what = told(heap, fault)?;
    assert!(rt; what.as_str() == text, "{}", line);
    Ok(())
}

#[test]
fn wrong_words(rt: HostRuntime) -> Result<(), Fail> {
    let heap = rt.alloc();
    says(&rt, heap, "frob", "there is no such command")?;
    says(&rt, heap, "Make", "there is no such command")?;
    says(&rt, heap, "make 1", "expected: no word behind new or make")?;
    says(
        &rt,
        heap,
        "entry 20510001 0 1 2",
        "expected: entry KEY KIND DEFAULT LOW HIGH",
    )?;
    says(&rt, heap, "need 1", "expected: need ITEM ITEM")?;
    says(
        &rt,
        heap,
        "put ram 20510001 1",
        "expected: put bbr|flash KEY VALUE",
    )?;
    says(&rt, heap, "remove bbr", "expected: remove bbr|flash KEY")?;
    says(&rt, heap, "clear all", "expected: clear bbr|flash")?;
    says(&rt, heap, "answer", "expected: answer SIZE")?;
    says(&rt, heap, "look 0", "expected: look LAYER KEY")?;
    says(&rt, heap, "restart Kept", "expected: restart kept|lost")
}

#[test]
fn wrong_numbers(rt: HostRuntime) -> Result<(), Fail> {
    let heap = rt.alloc();
    says(
        &rt,
        heap,
        "take 100",
        "a byte is a hexadecimal number up to ff",
    )?;
    says(
        &rt,
        heap,
        "look 0 0x1",
        "a key is a hexadecimal number up to ffffffff",
    )?;
    says(
        &rt,
        heap,
        "read b5 162",
        "a byte is a hexadecimal number up to ff",
    )?;
    says(&rt, heap, "look RAM 20510001", "expected a decimal number")?;
    says(
        &rt,
        heap,
        "entry 20510001 256 1 0 2",
        "expected a decimal number up to 255",
    )?;
    says(
        &rt,
        heap,
        "put bbr 20510001 18446744073709551616",
        "expected a decimal number up to 18446744073709551615",
    )
}

#[test]
fn wrong_words_of_a_journal(rt: HostRuntime) -> Result<(), Fail> {
    let heap = rt.alloc();
    says(&rt, heap, "inspect", "expected: inspect COUNT [WORD...]")?;
    says(&rt, heap, "words ram", "expected: words bbr|flash")?;
    says(
        &rt,
        heap,
        "inspect 640 g",
        "a word is a hexadecimal number up to ffffffff",
    )?;
    says(
        &rt,
        heap,
        "inspect 1048577",
        "expected a decimal number up to 1048576",
    )?;
    says(
        &rt,
        heap,
        "flash saver journal",
        "expected: bbr|flash [saver] slots|absent|journal COUNT [WORD...]",
    )
}

#[test]
fn wrong_words_of_the_host(rt: HostRuntime) -> Result<(), Fail> {
    let heap = rt.alloc();
    says(
        &rt,
        heap,
        "hostset 17 1 20510001",
        "expected: hostset SIZE LAYERS [KEY VALUE...]",
    )?;
    says(
        &rt,
        heap,
        "hostbegin both 17 1",
        "expected: hostbegin set|del SIZE LAYERS [KEY VALUE...]|[KEY...]",
    )?;
    says(
        &rt,
        heap,
        "hostget 16 0 65536",
        "expected a decimal number up to 65535",
    )?;
    says(
        &rt,
        heap,
        "hostapply 17",
        "expected: no word behind hostapply or hostabandon",
    )
}
