//! What the profile leaves out, as data: every list of words and names is here alone.

/// Words that are refused wherever they stand, a row for each letter that they begin with, from `a`:
/// types of floating point and of 128 bits, vectors, tokens and metadata; what works on them; casts
/// from integers to pointers and between address spaces; atomics; terminators other than those of
/// plain C and its exceptions; and attributes that change what a call or a pointer means.
pub const LEFT_WORDS: &[&[&[u8]]] = &[
    &[
        b"addrspacecast",
        b"addrspace",
        b"atomic",
        b"atomicrmw",
        b"asm",
        b"alias",
    ],
    &[b"bfloat", b"bitcast", b"blockaddress", b"byval"],
    &[
        b"cmpxchg",
        b"callbr",
        b"catchswitch",
        b"catchpad",
        b"cleanuppad",
        b"catchret",
        b"cleanupret",
    ],
    &[b"double", b"dso_local_equivalent"],
    &[b"extractvalue", b"extractelement"],
    &[
        b"float", b"fp128", b"fadd", b"fsub", b"fmul", b"fdiv", b"frem", b"fneg", b"fcmp",
        b"fptrunc", b"fpext", b"fptoui", b"fptosi", b"fence",
    ],
    &[],
    &[b"half"],
    &[
        b"inttoptr",
        b"indirectbr",
        b"ifunc",
        b"insertvalue",
        b"insertelement",
        b"inalloca",
    ],
    &[],
    &[],
    &[],
    &[b"metadata", b"musttail"],
    &[b"no_cfi", b"null_pointer_is_valid"],
    &[],
    &[b"ppc_fp128", b"ptrauth", b"preallocated"],
    &[],
    &[b"returns_twice"],
    &[b"sitofp", b"splat", b"shufflevector", b"swifterror"],
    &[b"token", b"thread_local"],
    &[b"uitofp", b"uselistorder", b"uselistorder_bb"],
    &[b"vscale", b"va_arg"],
    &[],
    &[b"x86_fp80", b"x86_mmx", b"x86_amx"],
    &[],
    &[],
];

/// The lengths of these words, a row for each letter: `#` stands where a word of so many bytes begins
/// with it. It spares most words the comparison with those of their row.
pub static LEFT_LENGTHS: [u8; 832] = *b"\
    ...#.##..#...#..................\
    .....###....#...................\
    ......###.##....................\
    ......#.............#...........\
    ............#.#.................\
    ....####........................\
    ................................\
    ....#...........................\
    .....#..#.##.#..................\
    ................................\
    ................................\
    ................................\
    ........#.......................\
    ......#..............#..........\
    ................................\
    .......#.#..#...................\
    ................................\
    .............#..................\
    .....##...#..#..................\
    .....#......#...................\
    ......#.....#..#................\
    ......#.........................\
    ................................\
    .......##.......................\
    ................................\
    ................................";

/// The first bytes of global names that are refused, without the `@`.
pub const LEFT_NAMES: &[&[u8]] = &[
    b"llvm.lifetime.",
    b"llvm.eh.",
    b"llvm.coro.",
    b"llvm.stackrestore",
    b"llvm.localescape",
];

/// The names that are kept all the same.
pub const KEPT_NAMES: &[&[u8]] = &[b"llvm.lifetime.start.p0", b"llvm.lifetime.end.p0"];
