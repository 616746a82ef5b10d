// A table of abbreviations from one of its declarations on.
ghost use Rattle.std.specs.Prelude.{◌≡◌, IfOk, IfErr, Ok, Err};
ghost use Rattle.dw_unit.specs.CompUnits.{declaration_of};
ghost use Rattle.dw_unit.specs.Told.{told_declaration};
ghost use Rattle.dw_unit.specs.TablesAt.{told_at};

use crate::codes::first_from;
use crate::declaration::Declaration;
use crate::table_place::TableAt;
use crate::trouble::Trouble;

impl<'t> TableAt<'t> {
    /// The first declaration of `code`. It must name no attribute twice.
    pub fn declaration(&self, code: u64) -> Result<&'t Declaration, Trouble>
        ensures read { IfOk result (λ d. declaration_of (told_at self.now) code ≡ Ok (told_declaration d.now)) }
        ensures trouble { IfErr result (λ e. declaration_of (told_at self.now) code ≡ Err e) }
    {
        let Some(index) = first_from(&self.table.keys, code, self.index) else {
            return Err(Trouble::Unsound);
        };
        let Some(declaration) = self.table.item(index) else {
            return Err(Trouble::Unsound);
        };
        let Some(once) = self.table.is_once(index) else {
            return Err(Trouble::Unsound);
        };
        if !once {
            return Err(Trouble::Unsound);
        }
        Ok(declaration)
    }
}
