//! The numbers by which rows are found.

use crate::rows::{Attachment, Export, Import, Required, Use};
use crate::spots::Spotted;
use crate::table::Keyed;

impl Keyed for Import {
    ghost number_of = { λ row. row.revision };

    fn number(&self) -> u32 {
        self.revision
    }
}

impl Spotted for Import {
    ghost name_of = { λ row. row.imported };

    fn name(&self) -> u32 {
        self.imported
    }
}

impl Keyed for Required {
    ghost number_of = { λ row. row.revision };

    fn number(&self) -> u32 {
        self.revision
    }
}

impl Keyed for Attachment {
    ghost number_of = { λ row. row.host };

    fn number(&self) -> u32 {
        self.host
    }
}

impl Keyed for Export {
    ghost number_of = { λ row. row.owner };

    fn number(&self) -> u32 {
        self.owner
    }
}

impl Spotted for Export {
    ghost name_of = { λ row. row.exported };

    fn name(&self) -> u32 {
        self.exported
    }
}

impl Keyed for Use {
    ghost number_of = { λ row. row.owner };

    fn number(&self) -> u32 {
        self.owner
    }
}

impl Spotted for Use {
    ghost name_of = { λ row. row.exported };

    fn name(&self) -> u32 {
        self.exported
    }
}
