// Bytes from text: hexadecimal numbers, where `63*06_92` is 63 times `06 92`.
use std::alloc::Global;
use std::test::Fail;

fn add_unit(bytes: &mut Vec<u8>, unit: &str) -> Result<(), Fail> {
    for byte in unit.split('_') {
        bytes.push(u8::from_str_radix(byte, 16)?)?;
    }
    Ok(())
}

fn add_word(bytes: &mut Vec<u8>, word: &str) -> Result<(), Fail> {
    let Some((times, unit)) = word.split_once('*') else {
        return add_unit(bytes, word);
    };
    for _ in 0..times.parse::<u32>()? {
        add_unit(bytes, unit)?;
    }
    Ok(())
}

pub fn bytes_of(heap: Global, text: &str) -> Result<Vec<u8>, Fail> {
    let mut bytes = Vec::new(heap);
    for word in text.split_whitespace() {
        add_word(&mut bytes, word)?;
    }
    Ok(bytes)
}
