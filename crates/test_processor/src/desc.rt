use o2_desc::{Access, Descriptor, FlagsWord, Selector, Table};
use std::alloc::Global;
use test_fixtures::{Wrong, want};

pub fn descriptor_bytes() -> Result<(), Wrong> {
    let d = Descriptor {
        base: 0x01_2340,
        limit: 0x00FF,
        access: 0xF3,
    };
    let bytes = [0xFF, 0x00, 0x40, 0x23, 0x01, 0xF3, 0x00, 0x00];
    let found = [
        Descriptor::from_bytes(&bytes),
        Descriptor::from_bytes(&[0xFF, 0x00, 0x40, 0x23, 0x01, 0xF3, 0x01, 0x00]),
        Descriptor::from_bytes(&[0xFF, 0x00, 0x40, 0x23, 0x01, 0xF3, 0x00, 0x80]),
    ];
    want(d.to_bytes() == bytes && found == [Some(d), None, None], 0)?;
    Ok(())
}

pub fn selectors_split_and_join() -> Result<(), Wrong> {
    for s in 0..=u16::MAX {
        let selector = Selector(s);
        let table = if selector.is_local() { 4 } else { 0 };
        let joined = selector.index() * 8 + table + selector.rpl();
        want(joined == s && selector.rpl() < 4, s as usize)?;
    }
    Ok(())
}

// The places of the flags word's bits, as the manual's figure has them.
static FLAG_BITS: [(FlagsWord, u16); 11] = [
    (FlagsWord::CARRY, 0x0001),
    (FlagsWord::PARITY, 0x0004),
    (FlagsWord::ADJUST, 0x0010),
    (FlagsWord::ZERO, 0x0040),
    (FlagsWord::SIGN, 0x0080),
    (FlagsWord::TRAP, 0x0100),
    (FlagsWord::INTERRUPT, 0x0200),
    (FlagsWord::DIRECTION, 0x0400),
    (FlagsWord::OVERFLOW, 0x0800),
    (FlagsWord::IO_PRIVILEGE, 0x3000),
    (FlagsWord::NESTED, 0x4000),
];

// The places of the access byte's bits.
static ACCESS_BITS: [(Access, u8); 7] = [
    (Access::ACCESSED, 0x01),
    (Access::READ_WRITE, 0x02),
    (Access::CONFORMING, 0x04),
    (Access::EXECUTABLE, 0x08),
    (Access::SEGMENT, 0x10),
    (Access::PRIVILEGE, 0x60),
    (Access::PRESENT, 0x80),
];

pub fn named_bits() -> Result<(), Wrong> {
    let flags = FLAG_BITS.iter().all(|(flag, bits)| flag.0 == *bits);
    let rights = ACCESS_BITS.iter().all(|(flag, bits)| flag.0 == *bits);
    want(flags && rights, 0)?;
    Ok(())
}

// Access bytes, and whether they are present code, readable, writable.
static KINDS: [(u8, bool, bool, bool, bool); 8] = [
    (0xFA, true, true, true, false),
    (0xF8, true, true, false, false),
    (0xF2, true, false, true, true),
    (0xF0, true, false, true, false),
    (0x7B, false, true, true, false),
    (0x79, false, true, false, false),
    (0x73, false, false, true, true),
    (0xE4, true, false, false, false),
];

pub fn kinds_of_segment() -> Result<(), Wrong> {
    for (row, (byte, present, code, readable, writable)) in KINDS.iter().enumerate() {
        let access = Access(*byte);
        let found = [
            access.is_present(),
            access.is_code(),
            access.is_readable(),
            access.is_writable(),
        ];
        let is_right = found == [*present, *code, *readable, *writable];
        want(is_right && access.privilege() == 3, row)?;
    }
    Ok(())
}

pub fn flags_that_programs_write() -> Result<(), Wrong> {
    let words = [
        FlagsWord(0x0202).popped(0xFFFF).0,
        FlagsWord(0xFFFF).popped(0x0000).0,
        FlagsWord(0x0202).loaded(0xFF).0,
        FlagsWord(0xFFFF).loaded(0x00).0,
        FlagsWord(0x0000).shown().0,
        FlagsWord(0xFFFF).shown().0,
        FlagsWord(0x8246).shown().0,
    ];
    let wanted = [0x4FD7, 0xB22A, 0x02D7, 0xFF2A, 0x0002, 0x7FD7, 0x0246];
    want(words == wanted, 0)?;
    Ok(())
}

pub fn table_keeps_its_entries(alloc: Global) -> Result<(), Wrong> {
    let mut table = Table::new(alloc, 3)?;
    want(table.len() == 3, 0)?;
    let d = Descriptor {
        base: 0x1000,
        limit: 0x01FF,
        access: 0x72,
    };
    table.set(1, d);
    table.mark(1);
    let empty = Some(Descriptor::EMPTY);
    let marked = Some(Descriptor { access: 0x73, ..d });
    let found = [table.get(0), table.get(1), table.get(2), table.get(3)];
    want(found == [empty, marked, empty, None], 1)?;
    Ok(())
}
