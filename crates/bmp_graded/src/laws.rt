//! The laws of graded modules, each the contract of a function without a body.
ghost use Rattle.bmp_graded.specs.Statements.{FreeModulesAreModules, QuotientsAreModules, DirectSumsAreModules, NormalFormsAreNormal, ProjectionsAreMaps, ExtensionsAreMaps, ExtensionsSendGenerators, MapsAreDetermined, QuotientEqualityIsDivisibility, LineModuloItsVariable};

/// A free module meets the laws of a module.
pub fn free_modules_are_modules()
    ensures { FreeModulesAreModules }
{}

/// A free module modulo a linear form meets the laws of a module.
pub fn quotients_are_modules()
    ensures { QuotientsAreModules }
{}

/// A finite direct sum of modules meets the laws of a module.
pub fn direct_sums_are_modules()
    ensures { DirectSumsAreModules }
{}

/// The function that the quotients are built with makes normal forms: polynomials without the leading variable
/// whose difference from the given one the linear form divides.
pub fn normal_forms_are_normal()
    ensures { NormalFormsAreNormal }
{}

/// Sending an element of a free module to itself modulo a linear form is a module map.
pub fn projections_are_maps()
    ensures { ProjectionsAreMaps }
{}

/// Any images of the generators of a free module in a module determine a module map, which sends each generator to
/// its image.
pub fn extensions_are_maps()
    ensures map { ExtensionsAreMaps }
    ensures generators { ExtensionsSendGenerators }
{}

/// There is only one module map from a free module with given images of the generators.
pub fn maps_are_determined()
    ensures { MapsAreDetermined }
{}

/// Two elements of a free module are equal in its quotient by a linear form exactly where the linear form divides
/// each component of their difference.
pub fn quotient_equality_is_divisibility()
    ensures { QuotientEqualityIsDivisibility }
{}

/// The smallest quotient: one variable, generators of degrees 0 and 1, modulo the variable.
pub fn line_modulo_its_variable()
    ensures { LineModuloItsVariable }
{}
