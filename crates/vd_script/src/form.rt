//! A row of the grammar: the fields of a step's line, in their order.

/// The step whose fields are read in the order of the row, where no word is left behind them.
macro_rules! read_form {
    ($words:ident => $group:ident::$form:ident { $($field:ident: $read:ident($($with:expr),*)),* }) => {{
        let step = $group::$form { $($field: $words.$read($($with),*)?),* };
        $words.done(step)
    }};
}

/// The lines of a device's steps: the first word, the name, the numbers in brackets, and what stands behind them.
macro_rules! print_forms {
    ($step:ident of $group:ident, $word:ident, $name:ident, $into:ident, { $($other:tt)* };
        $($form:ident { $($field:ident),* } => [$($number:expr),*] $($put:ident($value:expr)),*;)*) => {
        match $step {
            $($group::$form { $($field),* } => {
                begin($into, $word::$form.text(), $name, &[$($number),*])?;
                $($put($into, $value)?;)*
                Ok(())
            })*
            $($other)*
        }
    };
}

/// The lines of steps that begin with no device's name.
macro_rules! print_control_forms {
    ($step:ident of $group:ident, $word:ident, $into:ident;
        $($form:ident { $($field:ident),* } => $($put:ident($value:expr)),*;)*) => {
        match $step {
            $($group::$form { $($field),* } => {
                $into.extend_from_slice($word::$form.text())?;
                $($put($into, $value)?;)*
                Ok(())
            })*
        }
    };
}

pub(crate) use print_control_forms;
pub(crate) use print_forms;
pub(crate) use read_form;
