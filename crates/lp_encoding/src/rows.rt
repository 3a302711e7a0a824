//! The parts of a program, each field behind the one before.
ghost use Rattle.lp_encoding.specs.Programs.{fun_row, pragmas, program, slot, switch_row, tables, type_name, var_row, version};
ghost use Rattle.lp_encoding.specs.Forms.{list};

use crate::coded::Coded;
use crate::fault::DecodeFault;
use crate::lists::put_list;
use crate::reader::Reader;
use lp_code::listed::Listed;
use lp_code::name::Name;
use lp_code::program::{FunRow, RawProgram, SwitchRow};
use lp_code::slots::Slots;
use lp_code::tables::{Slot, Tables, VarRow};
use lp_instr::instr::{Case, Instr};
use lp_tree::keyword::Base;
use lp_tree::path::FilePath;
use lp_tree::pragma::{Pragmas, TypeMode};
use lp_tree::types::TypeName;
use lp_values::id::ProgId;
use lp_values::text::Text;
use std::alloc::{AllocError, Global};

impl Coded for TypeName {
    ghost form = { type_name };

    fn put(&self, alloc: Global, out: &mut Vec<u8>) -> Result<(), AllocError> {
        self.base.put(alloc, out)?;
        self.stars.put(alloc, out)
    }

    fn take(alloc: Global, reader: &mut Reader) -> Result<TypeName, DecodeFault> {
        let base = Base::take(alloc, reader)?;
        let stars = u32::take(alloc, reader)?;
        Ok(TypeName { base, stars })
    }
}

impl Coded for ProgId {
    ghost form = { version };

    fn put(&self, alloc: Global, out: &mut Vec<u8>) -> Result<(), AllocError> {
        self.0.put(alloc, out)
    }

    fn take(alloc: Global, reader: &mut Reader) -> Result<ProgId, DecodeFault> {
        Ok(ProgId(u64::take(alloc, reader)?))
    }
}

impl Coded for SwitchRow {
    ghost form = { switch_row };

    fn put(&self, alloc: Global, out: &mut Vec<u8>) -> Result<(), AllocError> {
        self.cases.put(alloc, out)?;
        self.other.put(alloc, out)
    }

    fn take(alloc: Global, reader: &mut Reader) -> Result<SwitchRow, DecodeFault> {
        let cases = Listed::<Case>::take(alloc, reader)?;
        let other = u32::take(alloc, reader)?;
        Ok(SwitchRow { cases, other })
    }
}

impl Coded for FunRow {
    ghost form = { fun_row };

    fn put(&self, alloc: Global, out: &mut Vec<u8>) -> Result<(), AllocError> {
        self.name.put(alloc, out)?;
        self.from.put(alloc, out)?;
        self.params.put(alloc, out)?;
        self.locals.put(alloc, out)
    }

    fn take(alloc: Global, reader: &mut Reader) -> Result<FunRow, DecodeFault> {
        let name = Name::take(alloc, reader)?;
        let from = u32::take(alloc, reader)?;
        let params = u8::take(alloc, reader)?;
        let locals = u16::take(alloc, reader)?;
        Ok(FunRow {
            name,
            from,
            params,
            locals,
        })
    }
}

impl Coded for Slot {
    ghost form = { slot };

    fn put(&self, alloc: Global, out: &mut Vec<u8>) -> Result<(), AllocError> {
        self.name.put(alloc, out)?;
        self.part.put(alloc, out)?;
        self.fun.put(alloc, out)?;
        self.mods.put(alloc, out)?;
        self.answer.put(alloc, out)?;
        self.params.put(alloc, out)
    }

    fn take(alloc: Global, reader: &mut Reader) -> Result<Slot, DecodeFault> {
        let name = Name::take(alloc, reader)?;
        let part = u16::take(alloc, reader)?;
        let fun = u16::take(alloc, reader)?;
        let mods = u16::take(alloc, reader)?;
        let answer = TypeName::take(alloc, reader)?;
        let params = Listed::<TypeName>::take(alloc, reader)?;
        Ok(Slot {
            name,
            part,
            fun,
            mods,
            answer,
            params,
        })
    }
}

impl Coded for Slots {
    ghost form = { list slot };

    fn put(&self, alloc: Global, out: &mut Vec<u8>) -> Result<(), AllocError> {
        put_list(alloc, self.as_slice(), out)
    }

    fn take(alloc: Global, reader: &mut Reader) -> Result<Slots, DecodeFault> {
        let rows = Listed::<Slot>::take(alloc, reader)?;
        Ok(Slots::from_vec(alloc, rows.into_vec())?)
    }
}

impl Coded for VarRow {
    ghost form = { var_row };

    fn put(&self, alloc: Global, out: &mut Vec<u8>) -> Result<(), AllocError> {
        self.name.put(alloc, out)?;
        self.part.put(alloc, out)?;
        self.mods.put(alloc, out)?;
        self.kind.put(alloc, out)
    }

    fn take(alloc: Global, reader: &mut Reader) -> Result<VarRow, DecodeFault> {
        let name = Name::take(alloc, reader)?;
        let part = u16::take(alloc, reader)?;
        let mods = u16::take(alloc, reader)?;
        let kind = TypeName::take(alloc, reader)?;
        Ok(VarRow {
            name,
            part,
            mods,
            kind,
        })
    }
}

impl Coded for Pragmas {
    ghost form = { pragmas };

    fn put(&self, alloc: Global, out: &mut Vec<u8>) -> Result<(), AllocError> {
        self.no_clone.put(alloc, out)?;
        self.no_inherit.put(alloc, out)?;
        self.no_shadow.put(alloc, out)?;
        self.types.put(alloc, out)
    }

    fn take(alloc: Global, reader: &mut Reader) -> Result<Pragmas, DecodeFault> {
        let no_clone = bool::take(alloc, reader)?;
        let no_inherit = bool::take(alloc, reader)?;
        let no_shadow = bool::take(alloc, reader)?;
        let types = TypeMode::take(alloc, reader)?;
        Ok(Pragmas {
            no_clone,
            no_inherit,
            no_shadow,
            types,
        })
    }
}

impl Coded for Tables {
    ghost form = { tables };

    fn put(&self, alloc: Global, out: &mut Vec<u8>) -> Result<(), AllocError> {
        self.path.put(alloc, out)?;
        self.parents.put(alloc, out)?;
        self.parts.put(alloc, out)?;
        self.slots.put(alloc, out)?;
        self.vars.put(alloc, out)?;
        self.pragmas.put(alloc, out)
    }

    fn take(alloc: Global, reader: &mut Reader) -> Result<Tables, DecodeFault> {
        let path = FilePath::take(alloc, reader)?;
        let parents = Listed::<ProgId>::take(alloc, reader)?;
        let parts = Listed::<ProgId>::take(alloc, reader)?;
        let slots = Slots::take(alloc, reader)?;
        let vars = Listed::<VarRow>::take(alloc, reader)?;
        let pragmas = Pragmas::take(alloc, reader)?;
        Ok(Tables {
            path,
            parents,
            parts,
            slots,
            vars,
            pragmas,
        })
    }
}

impl Coded for RawProgram {
    ghost form = { program };

    fn put(&self, alloc: Global, out: &mut Vec<u8>) -> Result<(), AllocError> {
        self.instrs.put(alloc, out)?;
        self.consts.put(alloc, out)?;
        self.switches.put(alloc, out)?;
        self.funs.put(alloc, out)?;
        self.tables.put(alloc, out)?;
        self.max_height.put(alloc, out)
    }

    fn take(alloc: Global, reader: &mut Reader) -> Result<RawProgram, DecodeFault> {
        let instrs = Listed::<Instr>::take(alloc, reader)?;
        let consts = Listed::<Text>::take(alloc, reader)?;
        let switches = Listed::<SwitchRow>::take(alloc, reader)?;
        let funs = Listed::<FunRow>::take(alloc, reader)?;
        let tables = Tables::take(alloc, reader)?;
        let max_height = u32::take(alloc, reader)?;
        Ok(RawProgram {
            instrs,
            consts,
            switches,
            funs,
            tables,
            max_height,
        })
    }
}
