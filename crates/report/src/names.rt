// The kinds of dependencies, references, arguments and attributes by their numbers. Any other is the last.
ghost use Rattle.std.specs.Prelude.{◌≡◌};
ghost use Rattle.wire.specs.Fields.{value_of};
ghost use Rattle.report.specs.Names.{static_number, dynamic_number, dependency_kinds};
ghost use Rattle.report.specs.code.Kinds.{reference_kinds, argument_kinds, attributes_kinds};

#[derive(Clone, Copy, Debug, PartialEq, Eq)]
pub enum StaticDependencyKind {
    Import = 0,
    ImportDefer = 1,
    ImportSource = 2,
    ImportType = 3,
    ImportEquals = 4,
    Export = 5,
    ExportType = 6,
    ExportEquals = 7,
    MaybeTsModuleAugmentation = 8,
}

impl From<StaticDependencyKind> for u8 {
    ghost from_gives = { λ kind n. n ≡ static_number kind };

    fn from(kind: StaticDependencyKind) -> u8 {
        kind as u8
    }
}

#[derive(Clone, Copy, Debug, PartialEq, Eq)]
pub enum DynamicDependencyKind {
    Import = 9,
    ImportDefer = 10,
    ImportSource = 11,
    Require = 12,
}

impl From<DynamicDependencyKind> for u8 {
    ghost from_gives = { λ kind n. n ≡ dynamic_number kind };

    fn from(kind: DynamicDependencyKind) -> u8 {
        kind as u8
    }
}

// A kind of either enum.
#[derive(Clone, Copy, Debug, PartialEq, Eq)]
pub enum DependencyKind {
    Static(StaticDependencyKind),
    Dynamic(DynamicDependencyKind),
}

impl From<usize> for DependencyKind {
    ghost from_gives = { λ n kind. kind ≡ value_of dependency_kinds n };

    fn from(n: usize) -> DependencyKind {
        match n {
            0 => DependencyKind::Static(StaticDependencyKind::Import),
            1 => DependencyKind::Static(StaticDependencyKind::ImportDefer),
            2 => DependencyKind::Static(StaticDependencyKind::ImportSource),
            3 => DependencyKind::Static(StaticDependencyKind::ImportType),
            4 => DependencyKind::Static(StaticDependencyKind::ImportEquals),
            5 => DependencyKind::Static(StaticDependencyKind::Export),
            6 => DependencyKind::Static(StaticDependencyKind::ExportType),
            7 => DependencyKind::Static(StaticDependencyKind::ExportEquals),
            8 => DependencyKind::Static(StaticDependencyKind::MaybeTsModuleAugmentation),
            9 => DependencyKind::Dynamic(DynamicDependencyKind::Import),
            10 => DependencyKind::Dynamic(DynamicDependencyKind::ImportDefer),
            11 => DependencyKind::Dynamic(DynamicDependencyKind::ImportSource),
            _ => DependencyKind::Dynamic(DynamicDependencyKind::Require),
        }
    }
}

#[derive(Clone, Copy, Debug, PartialEq, Eq)]
pub enum ReferenceKind {
    Path,
    Types,
}

impl From<usize> for ReferenceKind {
    ghost from_gives = { λ n kind. kind ≡ value_of reference_kinds n };

    fn from(n: usize) -> ReferenceKind {
        match n {
            0 => ReferenceKind::Path,
            _ => ReferenceKind::Types,
        }
    }
}

#[derive(Clone, Copy, Debug, PartialEq, Eq)]
pub enum ArgumentKind {
    Expr,
    String,
    Template,
}

impl From<usize> for ArgumentKind {
    ghost from_gives = { λ n kind. kind ≡ value_of argument_kinds n };

    fn from(n: usize) -> ArgumentKind {
        match n {
            0 => ArgumentKind::Expr,
            1 => ArgumentKind::String,
            _ => ArgumentKind::Template,
        }
    }
}

#[derive(Clone, Copy, Debug, PartialEq, Eq)]
pub enum AttributesKind {
    None,
    Unknown,
    Known,
}

impl From<usize> for AttributesKind {
    ghost from_gives = { λ n kind. kind ≡ value_of attributes_kinds n };

    fn from(n: usize) -> AttributesKind {
        match n {
            0 => AttributesKind::None,
            1 => AttributesKind::Unknown,
            _ => AttributesKind::Known,
        }
    }
}
