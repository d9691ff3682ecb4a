//! The description of the target that gdb reads: a hart of RV32I, and no operating system.

/// The registers x0 to x31 and the pc, in the order in which they are told. Without the word `none` gdb would take a guest for a
/// program of GNU/Linux, and step it by breakpoints of its own.
pub const DESCRIPTION: &[u8] = b"<?xml version=\"1.0\"?>\n\
<!DOCTYPE target SYSTEM \"gdb-target.dtd\">\n\
<target version=\"1.0\"><architecture>riscv:rv32</architecture><osabi>none</osabi>\n\
<feature name=\"org.gnu.gdb.riscv.cpu\">\n\
<reg name=\"zero\" bitsize=\"32\"/>\n\
<reg name=\"ra\" bitsize=\"32\" type=\"code_ptr\"/>\n\
<reg name=\"sp\" bitsize=\"32\" type=\"data_ptr\"/>\n\
<reg name=\"gp\" bitsize=\"32\" type=\"data_ptr\"/>\n\
<reg name=\"tp\" bitsize=\"32\" type=\"data_ptr\"/>\n\
<reg name=\"t0\" bitsize=\"32\"/>\n\
<reg name=\"t1\" bitsize=\"32\"/>\n\
<reg name=\"t2\" bitsize=\"32\"/>\n\
<reg name=\"fp\" bitsize=\"32\" type=\"data_ptr\"/>\n\
<reg name=\"s1\" bitsize=\"32\"/>\n\
<reg name=\"a0\" bitsize=\"32\"/>\n\
<reg name=\"a1\" bitsize=\"32\"/>\n\
<reg name=\"a2\" bitsize=\"32\"/>\n\
<reg name=\"a3\" bitsize=\"32\"/>\n\
<reg name=\"a4\" bitsize=\"32\"/>\n\
<reg name=\"a5\" bitsize=\"32\"/>\n\
<reg name=\"a6\" bitsize=\"32\"/>\n\
<reg name=\"a7\" bitsize=\"32\"/>\n\
<reg name=\"s2\" bitsize=\"32\"/>\n\
<reg name=\"s3\" bitsize=\"32\"/>\n\
<reg name=\"s4\" bitsize=\"32\"/>\n\
<reg name=\"s5\" bitsize=\"32\"/>\n\
<reg name=\"s6\" bitsize=\"32\"/>\n\
<reg name=\"s7\" bitsize=\"32\"/>\n\
<reg name=\"s8\" bitsize=\"32\"/>\n\
<reg name=\"s9\" bitsize=\"32\"/>\n\
<reg name=\"s10\" bitsize=\"32\"/>\n\
<reg name=\"s11\" bitsize=\"32\"/>\n\
<reg name=\"t3\" bitsize=\"32\"/>\n\
<reg name=\"t4\" bitsize=\"32\"/>\n\
<reg name=\"t5\" bitsize=\"32\"/>\n\
<reg name=\"t6\" bitsize=\"32\"/>\n\
<reg name=\"pc\" bitsize=\"32\" type=\"code_ptr\"/>\n\
</feature></target>\n";
