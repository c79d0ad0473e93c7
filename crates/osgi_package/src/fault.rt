//! What is wrong with the clauses of Import-Package or Export-Package, and which of them is at fault.

/// The kinds of faults.
#[derive(Clone, Copy, Debug, PartialEq, Eq)]
pub enum PackageKind {
    /// A package is imported twice.
    Duplicate,
    /// A package of Java is exported.
    JavaExport,
    /// An export gives an attribute that every export has by itself.
    ImplicitAttribute,
    /// The version of an export is none, or one of the ranges of an import is none.
    BadVersion,
    /// An attribute's type is unknown, or its text is no value of that type.
    BadValue,
    /// An attribute has the type Double.
    DoubleType,
}

/// A fault: its kind, and the faulty clause, counted from 0.
#[derive(Clone, Copy, PartialEq, Eq)]
pub struct PackageFault {
    pub kind: PackageKind,
    pub clause: u32,
}
