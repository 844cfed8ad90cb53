// The count byte by byte, for the benchmark to link: the function is that of crate bytewise with its clauses.
#![tactic(auto)]

ghost use Rattle.std.specs.Prelude.{◌≡◌};
ghost use Rattle.pagemap.specs.Count.{counted};

// What counting answers: 0 and the number of set bits, or 15 and 0.
#[repr(C)]
#[derive(Clone, Copy)]
pub struct Counted {
    pub answer: u16,
    pub count: u16,
}

// The number of set bits in the first 512 bytes; 15 for a shorter map.
#[unsafe(no_mangle)]
pub extern "C" fn bytewise_count(map: &[u8]) -> Counted
    ensures answer { result.answer ≡ (counted map.now).answer }
    ensures count { result.count ≡ (counted map.now).count }
{
    match bytewise::bytewise_count(map) {
        Ok(count) => Counted { answer: 0, count },
        Err(refusal) => Counted {
            answer: u16::from(refusal),
            count: 0,
        },
    }
}
