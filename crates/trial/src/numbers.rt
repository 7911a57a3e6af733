// The generator of made-up numbers.

// A number below `end`, if that is not 0.
pub fn below(end: u32, a: u32) -> u32 {
    if end == 0 { 0 } else { a % end }
}

// A step of the generator xorshift32.
pub fn scrambled(x: u32) -> u32 {
    let a = x ^ x << 13;
    let b = a ^ a >> 17;
    b ^ b << 5
}

// A step of the generator and a sum, whose carries mix what the step's shifts alone keep apart.
fn mixed(x: u32) -> u32 {
    scrambled(x).wrapping_add(2654435769)
}

// Number k of the made-up case `code`, in 28 bits.
pub fn made_up(code: u32, k: u32) -> u32 {
    let seed = code % 65536 * 256 + k % 256 + 1;
    mixed(mixed(mixed(seed))) / 16
}

// The same below n.
pub fn pick(code: u32, k: u32, n: u32) -> u32 {
    below(n, made_up(code, k))
}
