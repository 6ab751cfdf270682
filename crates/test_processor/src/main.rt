//! Tests of the processor's parts `o2_decode`, `o2_desc`, `o2_alu` and `o2_core`, by rows from the manuals and from another disassembler.
#![tactic(auto)]

mod alu;
mod cases;
mod decode;
mod desc;
mod map;
mod stepping;

use std::io;
use test_fixtures::tell;

fn try_arithmetic(rt: &HostRuntime) -> io::Result<()> {
    tell(rt, "additions of bytes", alu::all_byte_additions())?;
    tell(rt, "sums of decimals", alu::daa_of_all_packed_decimals())?;
    tell(
        rt,
        "differences of decimals",
        alu::das_of_all_packed_decimals(),
    )?;
    tell(rt, "sums of the manual", alu::sums_of_the_manual())?;
    tell(rt, "results of one operand", alu::one_operand())?;
    tell(rt, "shifts", alu::shifts_by_hand())?;
    tell(rt, "products", alu::products_by_hand())?;
    tell(rt, "signed quotients", alu::signed_quotients_by_hand())?;
    tell(
        rt,
        "quotients of bytes",
        alu::all_byte_quotients_of_some_divisors(),
    )?;
    tell(rt, "decimals of the manual", alu::decimals_of_the_manual())?;
    Ok(())
}

fn main(rt: HostRuntime) -> io::Result<()> {
    tell(&rt, "436 instructions", decode::reads_instructions())?;
    tell(&rt, "12 fronts", decode::reads_fronts())?;
    tell(&rt, "all pairs of bytes", decode::reads_pairs())?;
    try_arithmetic(&rt)?;
    tell(&rt, "descriptors", desc::descriptor_bytes())?;
    tell(&rt, "selectors", desc::selectors_split_and_join())?;
    tell(&rt, "named bits", desc::named_bits())?;
    tell(&rt, "kinds of segment", desc::kinds_of_segment())?;
    tell(
        &rt,
        "flags that programs write",
        desc::flags_that_programs_write(),
    )?;
    tell(
        &rt,
        "entries of a table",
        desc::table_keeps_its_entries(rt.alloc()),
    )?;
    tell(
        &rt,
        "a step behind its miss",
        stepping::a_miss_is_tried_again(rt.alloc()),
    )?;
    tell(
        &rt,
        "a null register",
        stepping::a_null_register_reads_nothing(rt.alloc()),
    )
}
