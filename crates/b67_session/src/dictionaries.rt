//! The dictionaries of a session's programs.

ghost use Rattle.std.specs.Prelude.{◌≡◌, ◌+◌, ◌<◌, ◌≤◌, length, map, OnOk, IfOk, IfErr};
ghost use Rattle.b67_backing.specs.Held.{KeepsCounts};
ghost use Rattle.b67_backing.specs.declared.refusals.SpaceFault.TheVariants.{BackingFault};
ghost use Rattle.b67_codefile.specs.Meaning.{program_of};
ghost use Rattle.b67_lemmas.specs.Lists.{total};
ghost use Rattle.b67_stack.specs.declared.Cpu.{Cpu};
ghost use Rattle.b67_load.specs.Objects.{sectors_of_program};
ghost use Rattle.b67_load.specs.Writing.{Spares, HasSectors};
ghost use Rattle.b67_session.specs.Opened.{dictionary_words as words_of_dictionary, dictionaries};
ghost use Rattle.b67_session.specs.Words.{InstalledAll};

use b67_backing::{Backing, Sectors, SpaceFault};
use b67_ctl::FIRST_DICTIONARY;
use b67_load::{Admitted, install};
use b67_stack::Cpu;

/// The words of a program's dictionary: two and one for each segment and data row.
pub fn dictionary_words(program: &Admitted) -> u32
    ensures value { result ≡ words_of_dictionary (program_of program.now) }
    ensures few { result ≤ 257 }
{
    let file = program.file();
    2 + (file.segments.as_slice().len() + file.rows.as_slice().len()) as u32
}

/// Installs programs, their dictionaries one after the other from word 160 on, and answers the address after them.
pub fn install_all<B: Backing>(
    cpu: &mut Cpu,
    sectors: &mut Sectors,
    backing: &mut B,
    programs: &[Admitted],
) -> Result<u32, SpaceFault>
    requires inside { FIRST_DICTIONARY + dictionaries (map program_of programs.now) ≤ length cpu.old.core }
    requires sectors { HasSectors (B.size backing.old) sectors.old (total sectors_of_program (map program_of programs.now)) }
    ensures end { IfOk result (λ at. at ≡ FIRST_DICTIONARY + dictionaries (map program_of programs.now)) }
    ensures installed { OnOk result (InstalledAll B.holds (map program_of programs.now)
        (record { core = cpu.old.core; table = sectors.old; device = backing.old })
        (record { core = cpu.new.core; table = sectors.new; device = backing.new })) }
    ensures spares { Spares B.holds FIRST_DICTIONARY (dictionaries (map program_of programs.now))
        (record { core = cpu.old.core; table = sectors.old; device = backing.old })
        (record { core = cpu.new.core; table = sectors.new; device = backing.new }) }
    ensures cpu { cpu.new ≡ record cpu.old { core = cpu.new.core } }
    ensures refusal { IfErr result (λ fault. fault ≡ BackingFault) }
    ensures device { KeepsCounts B.size B.calls B.faults backing.old backing.new result }
{
    let _size = cpu.core.size();
    let mut at = FIRST_DICTIONARY;
    'programs: for program in programs {
        install(cpu, sectors, backing, at, program)?;
        at += dictionary_words(program);
    }
    Ok(at)
}
