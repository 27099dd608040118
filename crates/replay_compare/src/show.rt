// What is printed of a comparison: its beginning; and of a frame the class, its number, the rest as 32 bits, and the CRC-32 of the computed samples' bytes, low byte first.
use compare_step::Class;
use refusal::Refusal;
use std::io::Print;

// The class of a frame, its number and the rest.
fn class<R: Print>(rt: &R, name: &[u8], n: u32, rest: i32) {
    let bits = rest.cast_unsigned();
    let _ = rt.write_all(name);
    let _ = print!(rt; "{n} {bits:08x}");
}

pub(crate) fn begun<R: Print>(rt: &R, code: u32) {
    let _ = println!(rt; "begin {code}");
}

pub(crate) fn answer<R: Print>(rt: &R, a: Result<Class, Refusal>) {
    match a {
        Err(r) => class(rt, b"refused ", r.number(), 0),
        Ok(Class::Concealed) => class(rt, b"concealed ", 0, 0),
        Ok(Class::Settling(n)) => class(rt, b"settling ", n as u32, 0),
        Ok(Class::NotClean(n)) => class(rt, b"not-clean ", n as u32, 0),
        Ok(Class::Known) => class(rt, b"known ", 0, 0),
        Ok(Class::Differs(d)) => class(rt, b"differs ", d.sample as u32, d.rest),
    }
}

pub(crate) fn computed<R: Print>(rt: &R, out: &[i16; 80]) {
    let mut bytes = [0u8; 160];
    words::to_bytes(out, &mut bytes);
    let sum = crc32::crc32(&bytes);
    let _ = println!(rt; " {sum:08x}");
}
