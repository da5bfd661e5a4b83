// What is taken for granted of a series, as a law of the definitions.
ghost use Rattle.std.specs.Prelude.{◌≡◌, true};
ghost use Rattle.mon_schema.specs.Fits.{row_fits};
ghost use Rattle.mon_value.specs.declared.rows.Row.{Row};
ghost use Rattle.mon_value.specs.declared.schemas.MetricSchema.{MetricSchema};
ghost use Rattle.mon_value.specs.declared.schemas.TargetSchema.{TargetSchema};
ghost use Rattle.plan_split.specs.Meeting.{HasFields};

/// The series of a row that fits a target schema and a metric has a value for each of their fields.
pub fn series_that_fit_have_fields()
    ensures fields { (target : TargetSchema) (metric : MetricSchema) (row : Row)
        → row_fits target metric row ≡ true → HasFields target metric row.key }
{}
