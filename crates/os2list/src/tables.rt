// The header, the segments and the entries.

use o2_image::Module;
use o2_ne_segs::{Kind, Segment};
use o2_tool::Shown;
use std::io;

/// The header's fields.
pub fn list_head(rt: &HostRuntime, module: &Module) -> io::Result<()> {
    let head = module.head();
    let kind = if module.is_library() {
        "library"
    } else {
        "program"
    };
    println!(rt; "module {}, a {kind}", Shown(module.name().as_slice()))?;
    println!(rt;
        "header at {:X}h, flags {:04X}h, target {}",
        head.at, head.flags, head.target
    )?;
    println!(rt;
        "entry point {}:{:04X}h, stack {}:{:04X}h",
        head.cs, head.ip, head.ss, head.sp
    )?;
    println!(rt;
        "automatic data {}, with {} bytes of stack and {} of heap",
        head.auto_seg, head.stack, head.heap
    )
}

/// What a segment is for.
fn kind_text(kind: Kind) -> &'static str {
    match kind {
        Kind::Code => "code",
        Kind::CodeOnly => "code, execute-only",
        Kind::Writable => "data",
        Kind::ReadOnly => "data, read-only",
    }
}

fn list_row(rt: &HostRuntime, module: &Module, number: u16, segment: &Segment) -> io::Result<()> {
    let relocations = module.segment_relocs(number);
    println!(rt;
        "{number:>4} {:>6} {:>6X}h {:>6} {:04X}h {:>6} {}",
        segment.size,
        segment.file_at,
        segment.file_len,
        segment.flags,
        relocations,
        kind_text(segment.kind)
    )
}

/// The table of segments.
pub fn list_segments(rt: &HostRuntime, module: &Module) -> io::Result<()> {
    println!(rt; "\nsegments\n  no   size   place   file flags relocs kind")?;
    for number in 1..=module.segment_count() {
        if let Some(segment) = module.segment(number) {
            list_row(rt, module, number, &segment)?;
        }
    }
    Ok(())
}

/// The table of entries.
pub fn list_entries(rt: &HostRuntime, module: &Module) -> io::Result<()> {
    println!(rt; "\nentries: {}", module.entry_count())?;
    for ordinal in 1..=u16::MAX {
        if let Some((segment, offset)) = module.entries().get(ordinal) {
            println!(rt; "  {ordinal:>5} {segment}:{offset:04X}h")?;
        }
    }
    Ok(())
}
