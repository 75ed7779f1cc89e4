ghost use Rattle.std.specs.Prelude.{◌≡◌, ℕ};
ghost use Rattle.cs_cert.specs.Said.{held};
ghost use Rattle.cs_cert.specs.Written.{number_data};

use crate::form::Form;
use cs_json::{FromJson, Misread};
use serde_json::Value;
use std::alloc::{AllocError, Global};

impl Form for u8 {
    ghost Seen = { ℕ };

    ghost seen = { λ n. n };

    ghost said = { held 255 };

    ghost written = { number_data };

    fn read(alloc: Global, value: &Value) -> Result<u8, Misread> {
        let number = i128::from_json(alloc, value)?;
        Ok(u8::try_from(number).unwrap_or(u8::MAX))
    }

    fn write(&self, _alloc: Global) -> Result<Value, AllocError> {
        Ok(Value::from(*self))
    }
}

impl Form for u16 {
    ghost Seen = { ℕ };

    ghost seen = { λ n. n };

    ghost said = { held 65535 };

    ghost written = { number_data };

    fn read(alloc: Global, value: &Value) -> Result<u16, Misread> {
        let number = i128::from_json(alloc, value)?;
        Ok(u16::try_from(number).unwrap_or(u16::MAX))
    }

    fn write(&self, _alloc: Global) -> Result<Value, AllocError> {
        Ok(Value::from(*self))
    }
}

impl Form for u32 {
    ghost Seen = { ℕ };

    ghost seen = { λ n. n };

    ghost said = { held 4294967295 };

    ghost written = { number_data };

    fn read(alloc: Global, value: &Value) -> Result<u32, Misread> {
        let number = i128::from_json(alloc, value)?;
        Ok(u32::try_from(number).unwrap_or(u32::MAX))
    }

    fn write(&self, _alloc: Global) -> Result<Value, AllocError> {
        Ok(Value::from(*self))
    }
}
