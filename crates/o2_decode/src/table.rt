// The opcodes of the 80286, as the Intel 80286 Programmer's Reference Manual has them.

use o2_isa::{Entry, Op, Repeat, Row, Slot, Sreg, Width};

macro_rules! row {
    ($op:ident $width:ident $left:ident $(($l:expr))? $right:ident $(($r:expr))? $third:ident $repeat:ident) => {
        Row {
            op: Op::$op,
            width: Width::$width,
            left: Slot::$left$(($l))?,
            right: Slot::$right$(($r))?,
            third: Slot::$third,
            repeat: Repeat::$repeat,
        }
    };
}

macro_rules! sums {
    ($width:ident $right:ident) => {
        [
            Some(row!(OpAdd $width ModRm $right Absent Never)),
            Some(row!(OpOr $width ModRm $right Absent Never)),
            Some(row!(OpAdc $width ModRm $right Absent Never)),
            Some(row!(OpSbb $width ModRm $right Absent Never)),
            Some(row!(OpAnd $width ModRm $right Absent Never)),
            Some(row!(OpSub $width ModRm $right Absent Never)),
            Some(row!(OpXor $width ModRm $right Absent Never)),
            Some(row!(OpCmp $width ModRm $right Absent Never)),
        ]
    };
}

macro_rules! shifts {
    ($width:ident $right:ident $(($r:expr))?) => {
        [
            Some(row!(OpRol $width ModRm $right $(($r))? Absent Never)),
            Some(row!(OpRor $width ModRm $right $(($r))? Absent Never)),
            Some(row!(OpRcl $width ModRm $right $(($r))? Absent Never)),
            Some(row!(OpRcr $width ModRm $right $(($r))? Absent Never)),
            Some(row!(OpShl $width ModRm $right $(($r))? Absent Never)),
            Some(row!(OpShr $width ModRm $right $(($r))? Absent Never)),
            None,
            Some(row!(OpSar $width ModRm $right $(($r))? Absent Never)),
        ]
    };
}

macro_rules! units {
    ($width:ident $right:ident) => {
        [
            Some(row!(OpTest $width ModRm $right Absent Never)),
            None,
            Some(row!(OpNot $width ModRm Absent Absent Never)),
            Some(row!(OpNeg $width ModRm Absent Absent Never)),
            Some(row!(OpMul $width ModRm Absent Absent Never)),
            Some(row!(OpImul $width ModRm Absent Absent Never)),
            Some(row!(OpDiv $width ModRm Absent Absent Never)),
            Some(row!(OpIdiv $width ModRm Absent Absent Never)),
        ]
    };
}

macro_rules! only {
    ($op:ident $width:ident $right:ident) => {
        [Some(row!($op $width ModRm $right Absent Never)), None, None, None, None, None, None, None]
    };
}

/// The opcodes of one byte.
pub static TABLE: [Entry; 256] = [
    Entry::Modrm(row!(OpAdd Byte ModRm Register Absent Never)), // 00
    Entry::Modrm(row!(OpAdd Word ModRm Register Absent Never)), // 01
    Entry::Modrm(row!(OpAdd Byte Register ModRm Absent Never)), // 02
    Entry::Modrm(row!(OpAdd Word Register ModRm Absent Never)), // 03
    Entry::Bare(row!(OpAdd Byte Fixed(0) ImmByte Absent Never)), // 04
    Entry::Bare(row!(OpAdd Word Fixed(0) ImmWord Absent Never)), // 05
    Entry::Bare(row!(OpPush Word FixedSegment(Sreg::Es) Absent Absent Never)), // 06
    Entry::Bare(row!(OpPop Word FixedSegment(Sreg::Es) Absent Absent Never)), // 07
    Entry::Modrm(row!(OpOr Byte ModRm Register Absent Never)), // 08
    Entry::Modrm(row!(OpOr Word ModRm Register Absent Never)), // 09
    Entry::Modrm(row!(OpOr Byte Register ModRm Absent Never)), // 0A
    Entry::Modrm(row!(OpOr Word Register ModRm Absent Never)), // 0B
    Entry::Bare(row!(OpOr Byte Fixed(0) ImmByte Absent Never)), // 0C
    Entry::Bare(row!(OpOr Word Fixed(0) ImmWord Absent Never)), // 0D
    Entry::Bare(row!(OpPush Word FixedSegment(Sreg::Cs) Absent Absent Never)), // 0E
    Entry::Unused, // 0F
    Entry::Modrm(row!(OpAdc Byte ModRm Register Absent Never)), // 10
    Entry::Modrm(row!(OpAdc Word ModRm Register Absent Never)), // 11
    Entry::Modrm(row!(OpAdc Byte Register ModRm Absent Never)), // 12
    Entry::Modrm(row!(OpAdc Word Register ModRm Absent Never)), // 13
    Entry::Bare(row!(OpAdc Byte Fixed(0) ImmByte Absent Never)), // 14
    Entry::Bare(row!(OpAdc Word Fixed(0) ImmWord Absent Never)), // 15
    Entry::Bare(row!(OpPush Word FixedSegment(Sreg::Ss) Absent Absent Never)), // 16
    Entry::Bare(row!(OpPop Word FixedSegment(Sreg::Ss) Absent Absent Never)), // 17
    Entry::Modrm(row!(OpSbb Byte ModRm Register Absent Never)), // 18
    Entry::Modrm(row!(OpSbb Word ModRm Register Absent Never)), // 19
    Entry::Modrm(row!(OpSbb Byte Register ModRm Absent Never)), // 1A
    Entry::Modrm(row!(OpSbb Word Register ModRm Absent Never)), // 1B
    Entry::Bare(row!(OpSbb Byte Fixed(0) ImmByte Absent Never)), // 1C
    Entry::Bare(row!(OpSbb Word Fixed(0) ImmWord Absent Never)), // 1D
    Entry::Bare(row!(OpPush Word FixedSegment(Sreg::Ds) Absent Absent Never)), // 1E
    Entry::Bare(row!(OpPop Word FixedSegment(Sreg::Ds) Absent Absent Never)), // 1F
    Entry::Modrm(row!(OpAnd Byte ModRm Register Absent Never)), // 20
    Entry::Modrm(row!(OpAnd Word ModRm Register Absent Never)), // 21
    Entry::Modrm(row!(OpAnd Byte Register ModRm Absent Never)), // 22
    Entry::Modrm(row!(OpAnd Word Register ModRm Absent Never)), // 23
    Entry::Bare(row!(OpAnd Byte Fixed(0) ImmByte Absent Never)), // 24
    Entry::Bare(row!(OpAnd Word Fixed(0) ImmWord Absent Never)), // 25
    Entry::Unused, // 26
    Entry::Bare(row!(OpDaa Word Absent Absent Absent Never)), // 27
    Entry::Modrm(row!(OpSub Byte ModRm Register Absent Never)), // 28
    Entry::Modrm(row!(OpSub Word ModRm Register Absent Never)), // 29
    Entry::Modrm(row!(OpSub Byte Register ModRm Absent Never)), // 2A
    Entry::Modrm(row!(OpSub Word Register ModRm Absent Never)), // 2B
    Entry::Bare(row!(OpSub Byte Fixed(0) ImmByte Absent Never)), // 2C
    Entry::Bare(row!(OpSub Word Fixed(0) ImmWord Absent Never)), // 2D
    Entry::Unused, // 2E
    Entry::Bare(row!(OpDas Word Absent Absent Absent Never)), // 2F
    Entry::Modrm(row!(OpXor Byte ModRm Register Absent Never)), // 30
    Entry::Modrm(row!(OpXor Word ModRm Register Absent Never)), // 31
    Entry::Modrm(row!(OpXor Byte Register ModRm Absent Never)), // 32
    Entry::Modrm(row!(OpXor Word Register ModRm Absent Never)), // 33
    Entry::Bare(row!(OpXor Byte Fixed(0) ImmByte Absent Never)), // 34
    Entry::Bare(row!(OpXor Word Fixed(0) ImmWord Absent Never)), // 35
    Entry::Unused, // 36
    Entry::Bare(row!(OpAaa Word Absent Absent Absent Never)), // 37
    Entry::Modrm(row!(OpCmp Byte ModRm Register Absent Never)), // 38
    Entry::Modrm(row!(OpCmp Word ModRm Register Absent Never)), // 39
    Entry::Modrm(row!(OpCmp Byte Register ModRm Absent Never)), // 3A
    Entry::Modrm(row!(OpCmp Word Register ModRm Absent Never)), // 3B
    Entry::Bare(row!(OpCmp Byte Fixed(0) ImmByte Absent Never)), // 3C
    Entry::Bare(row!(OpCmp Word Fixed(0) ImmWord Absent Never)), // 3D
    Entry::Unused, // 3E
    Entry::Bare(row!(OpAas Word Absent Absent Absent Never)), // 3F
    Entry::Bare(row!(OpInc Word Fixed(0) Absent Absent Never)), // 40
    Entry::Bare(row!(OpInc Word Fixed(1) Absent Absent Never)), // 41
    Entry::Bare(row!(OpInc Word Fixed(2) Absent Absent Never)), // 42
    Entry::Bare(row!(OpInc Word Fixed(3) Absent Absent Never)), // 43
    Entry::Bare(row!(OpInc Word Fixed(4) Absent Absent Never)), // 44
    Entry::Bare(row!(OpInc Word Fixed(5) Absent Absent Never)), // 45
    Entry::Bare(row!(OpInc Word Fixed(6) Absent Absent Never)), // 46
    Entry::Bare(row!(OpInc Word Fixed(7) Absent Absent Never)), // 47
    Entry::Bare(row!(OpDec Word Fixed(0) Absent Absent Never)), // 48
    Entry::Bare(row!(OpDec Word Fixed(1) Absent Absent Never)), // 49
    Entry::Bare(row!(OpDec Word Fixed(2) Absent Absent Never)), // 4A
    Entry::Bare(row!(OpDec Word Fixed(3) Absent Absent Never)), // 4B
    Entry::Bare(row!(OpDec Word Fixed(4) Absent Absent Never)), // 4C
    Entry::Bare(row!(OpDec Word Fixed(5) Absent Absent Never)), // 4D
    Entry::Bare(row!(OpDec Word Fixed(6) Absent Absent Never)), // 4E
    Entry::Bare(row!(OpDec Word Fixed(7) Absent Absent Never)), // 4F
    Entry::Bare(row!(OpPush Word Fixed(0) Absent Absent Never)), // 50
    Entry::Bare(row!(OpPush Word Fixed(1) Absent Absent Never)), // 51
    Entry::Bare(row!(OpPush Word Fixed(2) Absent Absent Never)), // 52
    Entry::Bare(row!(OpPush Word Fixed(3) Absent Absent Never)), // 53
    Entry::Bare(row!(OpPush Word Fixed(4) Absent Absent Never)), // 54
    Entry::Bare(row!(OpPush Word Fixed(5) Absent Absent Never)), // 55
    Entry::Bare(row!(OpPush Word Fixed(6) Absent Absent Never)), // 56
    Entry::Bare(row!(OpPush Word Fixed(7) Absent Absent Never)), // 57
    Entry::Bare(row!(OpPop Word Fixed(0) Absent Absent Never)), // 58
    Entry::Bare(row!(OpPop Word Fixed(1) Absent Absent Never)), // 59
    Entry::Bare(row!(OpPop Word Fixed(2) Absent Absent Never)), // 5A
    Entry::Bare(row!(OpPop Word Fixed(3) Absent Absent Never)), // 5B
    Entry::Bare(row!(OpPop Word Fixed(4) Absent Absent Never)), // 5C
    Entry::Bare(row!(OpPop Word Fixed(5) Absent Absent Never)), // 5D
    Entry::Bare(row!(OpPop Word Fixed(6) Absent Absent Never)), // 5E
    Entry::Bare(row!(OpPop Word Fixed(7) Absent Absent Never)), // 5F
    Entry::Bare(row!(OpPusha Word Absent Absent Absent Never)), // 60
    Entry::Bare(row!(OpPopa Word Absent Absent Absent Never)), // 61
    Entry::Modrm(row!(OpBound Word Register Memory Absent Never)), // 62
    Entry::Modrm(row!(OpArpl Word ModRm Register Absent Never)), // 63
    Entry::Unused, // 64
    Entry::Unused, // 65
    Entry::Unused, // 66
    Entry::Unused, // 67
    Entry::Bare(row!(OpPush Word ImmWord Absent Absent Never)), // 68
    Entry::Modrm(row!(OpImulThree Word Register ModRm ImmWord Never)), // 69
    Entry::Bare(row!(OpPush Word ImmSigned Absent Absent Never)), // 6A
    Entry::Modrm(row!(OpImulThree Word Register ModRm ImmSigned Never)), // 6B
    Entry::Bare(row!(OpIns Byte Absent Absent Absent Always)), // 6C
    Entry::Bare(row!(OpIns Word Absent Absent Absent Always)), // 6D
    Entry::Bare(row!(OpOuts Byte Absent Source Absent Always)), // 6E
    Entry::Bare(row!(OpOuts Word Absent Source Absent Always)), // 6F
    Entry::Bare(row!(OpJo Word ImmSigned Absent Absent Never)), // 70
    Entry::Bare(row!(OpJno Word ImmSigned Absent Absent Never)), // 71
    Entry::Bare(row!(OpJb Word ImmSigned Absent Absent Never)), // 72
    Entry::Bare(row!(OpJae Word ImmSigned Absent Absent Never)), // 73
    Entry::Bare(row!(OpJe Word ImmSigned Absent Absent Never)), // 74
    Entry::Bare(row!(OpJne Word ImmSigned Absent Absent Never)), // 75
    Entry::Bare(row!(OpJbe Word ImmSigned Absent Absent Never)), // 76
    Entry::Bare(row!(OpJa Word ImmSigned Absent Absent Never)), // 77
    Entry::Bare(row!(OpJs Word ImmSigned Absent Absent Never)), // 78
    Entry::Bare(row!(OpJns Word ImmSigned Absent Absent Never)), // 79
    Entry::Bare(row!(OpJp Word ImmSigned Absent Absent Never)), // 7A
    Entry::Bare(row!(OpJnp Word ImmSigned Absent Absent Never)), // 7B
    Entry::Bare(row!(OpJl Word ImmSigned Absent Absent Never)), // 7C
    Entry::Bare(row!(OpJge Word ImmSigned Absent Absent Never)), // 7D
    Entry::Bare(row!(OpJle Word ImmSigned Absent Absent Never)), // 7E
    Entry::Bare(row!(OpJg Word ImmSigned Absent Absent Never)), // 7F
    Entry::Group(0), // 80
    Entry::Group(1), // 81
    Entry::Unused, // 82
    Entry::Group(2), // 83
    Entry::Modrm(row!(OpTest Byte ModRm Register Absent Never)), // 84
    Entry::Modrm(row!(OpTest Word ModRm Register Absent Never)), // 85
    Entry::Modrm(row!(OpXchg Byte ModRm Register Absent Never)), // 86
    Entry::Modrm(row!(OpXchg Word ModRm Register Absent Never)), // 87
    Entry::Modrm(row!(OpMov Byte ModRm Register Absent Never)), // 88
    Entry::Modrm(row!(OpMov Word ModRm Register Absent Never)), // 89
    Entry::Modrm(row!(OpMov Byte Register ModRm Absent Never)), // 8A
    Entry::Modrm(row!(OpMov Word Register ModRm Absent Never)), // 8B
    Entry::Modrm(row!(OpMov Word ModRm Segment Absent Never)), // 8C
    Entry::Modrm(row!(OpLea Word Register Memory Absent Never)), // 8D
    Entry::Modrm(row!(OpMov Word SegmentNotCs ModRm Absent Never)), // 8E
    Entry::Group(3), // 8F
    Entry::Bare(row!(OpXchg Word Fixed(0) Fixed(0) Absent Never)), // 90
    Entry::Bare(row!(OpXchg Word Fixed(0) Fixed(1) Absent Never)), // 91
    Entry::Bare(row!(OpXchg Word Fixed(0) Fixed(2) Absent Never)), // 92
    Entry::Bare(row!(OpXchg Word Fixed(0) Fixed(3) Absent Never)), // 93
    Entry::Bare(row!(OpXchg Word Fixed(0) Fixed(4) Absent Never)), // 94
    Entry::Bare(row!(OpXchg Word Fixed(0) Fixed(5) Absent Never)), // 95
    Entry::Bare(row!(OpXchg Word Fixed(0) Fixed(6) Absent Never)), // 96
    Entry::Bare(row!(OpXchg Word Fixed(0) Fixed(7) Absent Never)), // 97
    Entry::Bare(row!(OpCbw Word Absent Absent Absent Never)), // 98
    Entry::Bare(row!(OpCwd Word Absent Absent Absent Never)), // 99
    Entry::Bare(row!(OpCallFar Word FarImm Absent Absent Never)), // 9A
    Entry::Bare(row!(OpWait Word Absent Absent Absent Never)), // 9B
    Entry::Bare(row!(OpPushf Word Absent Absent Absent Never)), // 9C
    Entry::Bare(row!(OpPopf Word Absent Absent Absent Never)), // 9D
    Entry::Bare(row!(OpSahf Word Absent Absent Absent Never)), // 9E
    Entry::Bare(row!(OpLahf Word Absent Absent Absent Never)), // 9F
    Entry::Bare(row!(OpMov Byte Fixed(0) Offset Absent Never)), // A0
    Entry::Bare(row!(OpMov Word Fixed(0) Offset Absent Never)), // A1
    Entry::Bare(row!(OpMov Byte Offset Fixed(0) Absent Never)), // A2
    Entry::Bare(row!(OpMov Word Offset Fixed(0) Absent Never)), // A3
    Entry::Bare(row!(OpMovs Byte Absent Source Absent Always)), // A4
    Entry::Bare(row!(OpMovs Word Absent Source Absent Always)), // A5
    Entry::Bare(row!(OpCmps Byte Source Absent Absent WhileZero)), // A6
    Entry::Bare(row!(OpCmps Word Source Absent Absent WhileZero)), // A7
    Entry::Bare(row!(OpTest Byte Fixed(0) ImmByte Absent Never)), // A8
    Entry::Bare(row!(OpTest Word Fixed(0) ImmWord Absent Never)), // A9
    Entry::Bare(row!(OpStos Byte Absent Absent Absent Always)), // AA
    Entry::Bare(row!(OpStos Word Absent Absent Absent Always)), // AB
    Entry::Bare(row!(OpLods Byte Absent Source Absent Always)), // AC
    Entry::Bare(row!(OpLods Word Absent Source Absent Always)), // AD
    Entry::Bare(row!(OpScas Byte Absent Absent Absent WhileZero)), // AE
    Entry::Bare(row!(OpScas Word Absent Absent Absent WhileZero)), // AF
    Entry::Bare(row!(OpMov Byte Fixed(0) ImmByte Absent Never)), // B0
    Entry::Bare(row!(OpMov Byte Fixed(1) ImmByte Absent Never)), // B1
    Entry::Bare(row!(OpMov Byte Fixed(2) ImmByte Absent Never)), // B2
    Entry::Bare(row!(OpMov Byte Fixed(3) ImmByte Absent Never)), // B3
    Entry::Bare(row!(OpMov Byte Fixed(4) ImmByte Absent Never)), // B4
    Entry::Bare(row!(OpMov Byte Fixed(5) ImmByte Absent Never)), // B5
    Entry::Bare(row!(OpMov Byte Fixed(6) ImmByte Absent Never)), // B6
    Entry::Bare(row!(OpMov Byte Fixed(7) ImmByte Absent Never)), // B7
    Entry::Bare(row!(OpMov Word Fixed(0) ImmWord Absent Never)), // B8
    Entry::Bare(row!(OpMov Word Fixed(1) ImmWord Absent Never)), // B9
    Entry::Bare(row!(OpMov Word Fixed(2) ImmWord Absent Never)), // BA
    Entry::Bare(row!(OpMov Word Fixed(3) ImmWord Absent Never)), // BB
    Entry::Bare(row!(OpMov Word Fixed(4) ImmWord Absent Never)), // BC
    Entry::Bare(row!(OpMov Word Fixed(5) ImmWord Absent Never)), // BD
    Entry::Bare(row!(OpMov Word Fixed(6) ImmWord Absent Never)), // BE
    Entry::Bare(row!(OpMov Word Fixed(7) ImmWord Absent Never)), // BF
    Entry::Group(4), // C0
    Entry::Group(5), // C1
    Entry::Bare(row!(OpRet Word ImmWord Absent Absent Never)), // C2
    Entry::Bare(row!(OpRet Word Constant(0) Absent Absent Never)), // C3
    Entry::Modrm(row!(OpLes Word Register Memory Absent Never)), // C4
    Entry::Modrm(row!(OpLds Word Register Memory Absent Never)), // C5
    Entry::Group(10), // C6
    Entry::Group(11), // C7
    Entry::Bare(row!(OpEnter Word ImmWord ImmByte Absent Never)), // C8
    Entry::Bare(row!(OpLeave Word Absent Absent Absent Never)), // C9
    Entry::Bare(row!(OpRetf Word ImmWord Absent Absent Never)), // CA
    Entry::Bare(row!(OpRetf Word Constant(0) Absent Absent Never)), // CB
    Entry::Bare(row!(OpIntThree Word Absent Absent Absent Never)), // CC
    Entry::Bare(row!(OpInt Word ImmByte Absent Absent Never)), // CD
    Entry::Bare(row!(OpInto Word Absent Absent Absent Never)), // CE
    Entry::Bare(row!(OpIret Word Absent Absent Absent Never)), // CF
    Entry::Group(6), // D0
    Entry::Group(7), // D1
    Entry::Group(8), // D2
    Entry::Group(9), // D3
    Entry::Bare(row!(OpAam Word ImmByte Absent Absent Never)), // D4
    Entry::Bare(row!(OpAad Word ImmByte Absent Absent Never)), // D5
    Entry::Unused, // D6
    Entry::Bare(row!(OpXlat Byte Absent Source Absent Never)), // D7
    Entry::Modrm(row!(OpEsc Word ModRm Absent Absent Never)), // D8
    Entry::Modrm(row!(OpEsc Word ModRm Absent Absent Never)), // D9
    Entry::Modrm(row!(OpEsc Word ModRm Absent Absent Never)), // DA
    Entry::Modrm(row!(OpEsc Word ModRm Absent Absent Never)), // DB
    Entry::Modrm(row!(OpEsc Word ModRm Absent Absent Never)), // DC
    Entry::Modrm(row!(OpEsc Word ModRm Absent Absent Never)), // DD
    Entry::Modrm(row!(OpEsc Word ModRm Absent Absent Never)), // DE
    Entry::Modrm(row!(OpEsc Word ModRm Absent Absent Never)), // DF
    Entry::Bare(row!(OpLoopne Word ImmSigned Absent Absent Never)), // E0
    Entry::Bare(row!(OpLoope Word ImmSigned Absent Absent Never)), // E1
    Entry::Bare(row!(OpLoop Word ImmSigned Absent Absent Never)), // E2
    Entry::Bare(row!(OpJcxz Word ImmSigned Absent Absent Never)), // E3
    Entry::Bare(row!(OpIn Byte Fixed(0) ImmByte Absent Never)), // E4
    Entry::Bare(row!(OpIn Word Fixed(0) ImmByte Absent Never)), // E5
    Entry::Bare(row!(OpOut Byte ImmByte Fixed(0) Absent Never)), // E6
    Entry::Bare(row!(OpOut Word ImmByte Fixed(0) Absent Never)), // E7
    Entry::Bare(row!(OpCall Word ImmWord Absent Absent Never)), // E8
    Entry::Bare(row!(OpJmp Word ImmWord Absent Absent Never)), // E9
    Entry::Bare(row!(OpJmpFar Word FarImm Absent Absent Never)), // EA
    Entry::Bare(row!(OpJmp Word ImmSigned Absent Absent Never)), // EB
    Entry::Bare(row!(OpIn Byte Fixed(0) FixedWord(2) Absent Never)), // EC
    Entry::Bare(row!(OpIn Word Fixed(0) FixedWord(2) Absent Never)), // ED
    Entry::Bare(row!(OpOut Byte FixedWord(2) Fixed(0) Absent Never)), // EE
    Entry::Bare(row!(OpOut Word FixedWord(2) Fixed(0) Absent Never)), // EF
    Entry::Unused, // F0
    Entry::Unused, // F1
    Entry::Unused, // F2
    Entry::Unused, // F3
    Entry::Bare(row!(OpHlt Word Absent Absent Absent Never)), // F4
    Entry::Bare(row!(OpCmc Word Absent Absent Absent Never)), // F5
    Entry::Group(12), // F6
    Entry::Group(13), // F7
    Entry::Bare(row!(OpClc Word Absent Absent Absent Never)), // F8
    Entry::Bare(row!(OpStc Word Absent Absent Absent Never)), // F9
    Entry::Bare(row!(OpCli Word Absent Absent Absent Never)), // FA
    Entry::Bare(row!(OpSti Word Absent Absent Absent Never)), // FB
    Entry::Bare(row!(OpCld Word Absent Absent Absent Never)), // FC
    Entry::Bare(row!(OpStd Word Absent Absent Absent Never)), // FD
    Entry::Group(14), // FE
    Entry::Group(15), // FF
];

/// The second bytes of the opcodes that begin with 0F.
pub static TABLE_0F: [Entry; 7] = [
    Entry::Group(16), // 0F 00
    Entry::Group(17), // 0F 01
    Entry::Modrm(row!(OpLar Word Register ModRm Absent Never)), // 0F 02
    Entry::Modrm(row!(OpLsl Word Register ModRm Absent Never)), // 0F 03
    Entry::Unused, // 0F 04
    Entry::Unused, // 0F 05
    Entry::Bare(row!(OpClts Word Absent Absent Absent Never)), // 0F 06
];

/// The groups, each with its rows by reg of the ModRM byte.
pub static GROUPS: [[Option<Row>; 8]; 18] = [
    sums!(Byte ImmByte), // 0: 80
    sums!(Word ImmWord), // 1: 81
    sums!(Word ImmSigned), // 2: 83
    only!(OpPop Word Absent), // 3: 8F
    shifts!(Byte ImmByte), // 4: C0
    shifts!(Word ImmByte), // 5: C1
    shifts!(Byte Constant(1)), // 6: D0
    shifts!(Word Constant(1)), // 7: D1
    shifts!(Byte FixedByte(1)), // 8: D2
    shifts!(Word FixedByte(1)), // 9: D3
    only!(OpMov Byte ImmByte), // 10: C6
    only!(OpMov Word ImmWord), // 11: C7
    units!(Byte ImmByte), // 12: F6
    units!(Word ImmWord), // 13: F7
    // 14: FE
    [
        Some(row!(OpInc Byte ModRm Absent Absent Never)),
        Some(row!(OpDec Byte ModRm Absent Absent Never)),
        None,
        None,
        None,
        None,
        None,
        None,
    ],
    // 15: FF
    [
        Some(row!(OpInc Word ModRm Absent Absent Never)),
        Some(row!(OpDec Word ModRm Absent Absent Never)),
        Some(row!(OpCallAt Word ModRm Absent Absent Never)),
        Some(row!(OpCallFarAt Word Memory Absent Absent Never)),
        Some(row!(OpJmpAt Word ModRm Absent Absent Never)),
        Some(row!(OpJmpFarAt Word Memory Absent Absent Never)),
        Some(row!(OpPush Word ModRm Absent Absent Never)),
        None,
    ],
    // 16: 0F 00
    [
        Some(row!(OpSldt Word ModRm Absent Absent Never)),
        Some(row!(OpStr Word ModRm Absent Absent Never)),
        Some(row!(OpLldt Word ModRm Absent Absent Never)),
        Some(row!(OpLtr Word ModRm Absent Absent Never)),
        Some(row!(OpVerr Word ModRm Absent Absent Never)),
        Some(row!(OpVerw Word ModRm Absent Absent Never)),
        None,
        None,
    ],
    // 17: 0F 01
    [
        Some(row!(OpSgdt Word Memory Absent Absent Never)),
        Some(row!(OpSidt Word Memory Absent Absent Never)),
        Some(row!(OpLgdt Word Memory Absent Absent Never)),
        Some(row!(OpLidt Word Memory Absent Absent Never)),
        Some(row!(OpSmsw Word ModRm Absent Absent Never)),
        None,
        Some(row!(OpLmsw Word ModRm Absent Absent Never)),
        None,
    ],
];
